// A stretch of a run by the card engine: no list of round keys, and each block of key stream is computed when its bytes are needed.
#![tactic(auto)]

pub mod run;
mod stretch;
