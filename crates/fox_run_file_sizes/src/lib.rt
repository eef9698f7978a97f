// How long a run file is, from the lengths of its scans.
#![tactic(auto)]

pub mod sizes;
