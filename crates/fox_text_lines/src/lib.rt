// A text's lines, and how texts are compared.
#![tactic(auto)]

pub mod lines;
