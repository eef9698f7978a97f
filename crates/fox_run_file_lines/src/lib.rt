// Lines of a run file: the header and the end, written and read.
#![tactic(auto)]

pub mod lines;
