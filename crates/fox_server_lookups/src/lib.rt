// Lookups in tables that are passed by reference, for the server engine (001 §4.2.2).
#![tactic(auto)]

pub mod lookups;
