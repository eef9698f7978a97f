// Four whole blocks of a run by the server engine, sealed side by side.
#![tactic(auto)]

pub mod four_blocks;
