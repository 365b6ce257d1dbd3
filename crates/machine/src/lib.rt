// The endpoint as a whole: what it sends is heard as sent, and good stays good. Definitions and proofs only.
#![tactic(auto)]
