// No code: specs/ has what a tag is (CMAC) and what a call that makes or tests one promises, proofs/ the theorems on CMAC and on calls.
#![tactic(auto)]
