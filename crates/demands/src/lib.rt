// Theory: the three demands, sentence by sentence. The code is in other crates.
#![tactic(auto)]
