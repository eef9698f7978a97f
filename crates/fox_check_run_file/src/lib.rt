// The definitions of the run file, computed on a published file; there is no code.
#![tactic(auto)]
