// Blocks in two words, as a session keeps them, by the server engine.
#![tactic(auto)]

pub mod block;
pub mod run;
