// The card engine on one block: sealing and opening, at once or in parts, with no list of round keys, and no table above the 32 bytes of padding.
#![tactic(auto)]

pub mod block;
pub mod part;
pub mod rounds;
