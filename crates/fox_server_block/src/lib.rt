// The server engine on one block: sealing and opening by table lookups, from a prepared key or from key bytes.
#![tactic(auto)]

pub mod block;
