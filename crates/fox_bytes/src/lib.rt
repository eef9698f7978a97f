// Words read from and written to byte slices, the most significant byte first.
#![tactic(auto)]

pub mod bytes;
