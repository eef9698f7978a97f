// Texts written into a buffer that the caller lends: decimals, pairs of hex digits, and lines of a name and a value.
#![tactic(auto)]

pub mod writing;
