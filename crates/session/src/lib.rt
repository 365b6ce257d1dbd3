// Two ends and two queues: demand 3. Definitions and proofs only.
#![tactic(auto)]
