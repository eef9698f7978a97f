// Four blocks sealed side by side by the server engine (001 §4.2.2): four chains of lookups that do not wait for each other.
#![tactic(auto)]

pub mod beside;
pub mod four;
pub mod fox64;
pub mod wide;
