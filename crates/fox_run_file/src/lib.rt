// The run file: what it is, what it says and what its calls promise (specs/), and the laws and theorems on it (proofs/). The code is in the crates above;
// here are the structs and enums that they pass on.
#![tactic(auto)]

pub mod place;
pub mod reading;
pub mod scan;
pub mod sizes;
