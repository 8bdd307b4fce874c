// Theory without code: specs/ has the nodes on the ways of opened leaves and the counts of document 01's demand 3; proofs/ has
// the theorems.
#![tactic(auto)]
