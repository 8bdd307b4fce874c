// Theory without code: specs/ says demand 3 of what is drawn from a proof, in document 01's words; proofs/ shows it.
#![tactic(auto)]
