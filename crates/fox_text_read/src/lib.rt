// Values read from texts of any length: decimals, pairs of hex digits, and lines of a name and a value.
#![tactic(auto)]

pub mod decimal;
pub mod fields;
pub mod hex;
