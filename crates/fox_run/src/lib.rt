// No code: specs/ has what a run in counter mode is and what a call on a stretch of it, or for its first counter block, promises, proofs/ the theorems on runs
// and on calls. The steps that all engines take are in fox_engine_run.
#![tactic(auto)]
