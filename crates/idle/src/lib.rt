// Programs of the tables' type that do not meet the contracts. Definitions and proofs only.
#![tactic(auto)]
