// What holds of document 01's definitions on every solid, in `specs/` and `proofs/`. There is no code here.
#![tactic(auto)]
