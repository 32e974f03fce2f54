// The pattern of a Cholesky factor, as definitions in specs/ and theorems in proofs/. The calls are in cs_pattern.
#![tactic(auto)]
