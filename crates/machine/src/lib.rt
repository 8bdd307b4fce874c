// Theory without code: work done a step at a time in calls with budgets. specs/ has the machine and its calls; proofs/ has the laws.
#![tactic(auto)]
