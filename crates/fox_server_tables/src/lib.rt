// The server engine's tables (001 §4.2.2), each proved to be what its rule says: the shifted S-box (TBS) and the joined S-box/diffusion tables (TBSM) of both
// ciphers. A constant table is built anew wherever it is named, so a caller builds each array of tables once and passes it by reference to every lookup.
#![tactic(auto)]

mod filled;
pub mod tbs;
pub mod tbsm4;
pub mod tbsm8;
