// Planning a chain from leaf positions.
#![tactic(auto)]

mod climbing; // climbing.rt: the ways up from the leaves
mod planning; // planning.rt: the checks, and the list
mod sorting; // sorting.rt: the different leaves in order

pub use planning::{check_leaves, different_leaves, plan};
