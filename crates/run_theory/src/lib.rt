// Theory without code: the states that runs and openings reach from a start. specs/ has what they hold; proofs/ has the theorems.
#![tactic(auto)]
