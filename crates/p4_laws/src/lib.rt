// What holds of P4 stacks, in `specs/` and `proofs/`; `specs/Lib.antt` names the front doors. There is no code here.
#![tactic(auto)]
