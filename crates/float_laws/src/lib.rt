// No code: definitions in specs/ and laws in proofs/ on the values that f64 holds.
#![tactic(auto)]
