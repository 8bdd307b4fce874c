// Theory without code: the turns of a unit's runs, for every state that a call does not refuse. specs/ has the words; proofs/ has the laws.
#![tactic(auto)]
