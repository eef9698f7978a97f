// No code: proofs/Vectors.antt has the prover compute 001's test vectors of FOX128 by the definitions.
#![tactic(auto)]
