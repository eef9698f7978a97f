// The sealed bytes of scans, which stand at the end of a file's room, brought to their places, each scan with its lines.
#![tactic(auto)]

pub mod lay;
