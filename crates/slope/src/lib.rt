// Demand 3, over document 01's definitions: the statements in `specs/`, the proofs in `proofs/`. There is no code here.
#![tactic(auto)]
