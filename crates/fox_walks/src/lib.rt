// No code: proofs/ has what walks by hand have in common. A function that the borrow checker does not cover is proved by such a walk of its MIR.
#![tactic(auto)]
