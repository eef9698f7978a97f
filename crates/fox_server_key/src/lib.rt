// The server engine's prepared key.
#![tactic(auto)]

pub mod prepared;
