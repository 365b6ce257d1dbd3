// Programs that are the tables but for one slip: demand 3 does not hold of them. Definitions and proofs only.
#![tactic(auto)]
