// Theory without code: specs/ says which bytes are a proof; proofs/ shows that the check accepts exactly these.
#![tactic(auto)]
