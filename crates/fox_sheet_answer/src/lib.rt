// The bench sheet answered by the card engine, and the answer written.
#![tactic(auto)]

pub mod answer;
