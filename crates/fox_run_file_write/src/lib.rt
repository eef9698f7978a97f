// The run file written by the server engine, from a prepared key and from key bytes.
#![tactic(auto)]

pub mod write;
