// The scans of a run file, found one after the other; no byte of a scan is looked at but its line feed.
#![tactic(auto)]

pub mod scan;
