// What all calls have in common: the refusals in their order, and the number that a C program gets of an answer.
#![tactic(auto)]

pub mod counters;
pub mod refusal;
pub mod refusals;
pub mod stretch;
pub mod tags;
