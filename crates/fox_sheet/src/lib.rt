// The bench sheet and its answer: definitions in specs/, theorems in proofs/. The code is in fox_sheet_read and fox_sheet_answer; here are the structs that
// reading returns.
#![tactic(auto)]

pub mod sheet;
