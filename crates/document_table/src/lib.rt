// Theory without code: document 01's table. specs/ has its cases; proofs/ checks them against the definitions by one proof.
#![tactic(auto)]
