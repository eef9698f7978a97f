// The S-box as a table of 256 entries (001 §2.2.6), for every engine that has room for it.
#![tactic(auto)]

pub mod sbox;
