// The rounds of FOX64 and FOX128 (001 §2.1, §2.2.1 to §2.2.5), computed without large tables.
#![tactic(auto)]

pub mod block;
pub mod fox128;
pub mod fox64;
pub mod state;
