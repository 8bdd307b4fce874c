// Theory without code: specs/ has the tree, its labels, store and openings; proofs/ has the theorems.
#![tactic(auto)]
