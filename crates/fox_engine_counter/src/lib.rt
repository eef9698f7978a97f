// How a run counts, in code: the step from its first counter block to each later one, which every engine takes.
#![tactic(auto)]

pub mod states;
