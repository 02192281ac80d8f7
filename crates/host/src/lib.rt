// Demand 3, what is wanted of quick touches, the two calls in a row, the known lean and the firm footing, as a host has them: the statements in `specs/`, the proofs in `proofs/`. There is no code here.
#![tactic(auto)]
