// Blocks of bytes as the words that rounds work on, and back: the same for every engine.
#![tactic(auto)]

pub mod blocks;
