// No code: specs/Exports.antt has what the calls that C programs make promise, and proofs/Exports.antt the theorems on them. Each engine's calls are a crate
// of their own, fox_station_card and fox_station_server, so that a program for one has nothing of the other in it.
#![tactic(auto)]
