// No code: E1 to E12 of document 01 as one list of cases, in specs/, and one proof that all agree, in proofs/.
#![tactic(auto)]
