// The step of a run in counter mode that every engine takes with a sealed counter block: it is XORed with bytes.
#![tactic(auto)]

pub mod key_stream;
