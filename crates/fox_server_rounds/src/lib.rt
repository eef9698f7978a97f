// The rounds of FOX64 and FOX128 by the server engine (001 §4.2.2), in tables and with round keys that are passed by reference.
#![tactic(auto)]

pub mod engine;
pub mod fox128;
pub mod fox64;
mod order;
pub mod tables;
