// The marked cases of document 01, K1 to K12. Definitions and proofs only.
#![tactic(auto)]
