// Reading a run file that was taken up: its scans are told, passed over or opened one by one, from a prepared key and from key bytes.
#![tactic(auto)]

pub mod places;
pub mod read;
