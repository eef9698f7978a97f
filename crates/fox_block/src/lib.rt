// No code: specs/ has what a block sealed or opened is and what a call on one promises, proofs/ the theorems on blocks and on calls.
#![tactic(auto)]
