// Two blocks and the C entries: demand 3. Definitions and proofs only.
#![tactic(auto)]
