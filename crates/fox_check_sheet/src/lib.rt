// No code: proofs/Sheets.antt has the prover compute what the bench program prints for sheets whose block is served. It is a crate of its own, so that the
// program is built without it.
#![tactic(auto)]
