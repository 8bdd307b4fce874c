// Theory of the crate `checkpoint`: only a checkpoint is read as one, and a seal resumed from any of its own goes on as if never stopped.
#![tactic(auto)]
