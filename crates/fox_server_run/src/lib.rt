// A stretch of a run by the server engine: tables and round keys are computed once for a call and passed by reference, counter blocks are sealed four side by
// side where four are whole, and else one by one. The calls take a prepared key or key bytes.
#![tactic(auto)]

pub mod run;
mod stretch;
