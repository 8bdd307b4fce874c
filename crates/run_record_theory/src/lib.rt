// Theory without code: records of paused runs. specs/ has what pausing does; proofs/ has the theorems.
#![tactic(auto)]
