// The steps of a tag that every engine takes: its blocks as states, and the test of a stored tag.
#![tactic(auto)]

pub mod states;
pub mod verdict;
