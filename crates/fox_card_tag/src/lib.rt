// Tags by the card engine: no list of round keys, and one block of the message after the other.
#![tactic(auto)]

mod chain;
pub mod tag;
