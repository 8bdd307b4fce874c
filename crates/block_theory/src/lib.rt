// The blocks of labels: what a node costs, sums over calls, and closed formulas. Definitions and theorems only.
#![tactic(auto)]
