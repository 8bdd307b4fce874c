// Theory without code: the file that budgeted calls write. specs/ has what stands in it after k labels; proofs/ has the theorems.
#![tactic(auto)]
