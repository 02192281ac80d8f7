// How far an accepted normal can lean, on any plane and on any solid. There is no code here: the statements are in `specs/`, the proofs there and in `proofs/`.
#![tactic(auto)]
