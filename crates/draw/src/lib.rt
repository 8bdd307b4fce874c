// Drawing a chain from a proof: the chain, or the first clash of two openings.
#![tactic(auto)]

mod leaves; // leaves.rt: the leaves opened
mod whole; // whole.rt: the chain or the clash

use compare::Clash;
pub use leaves::{challenge_leaves, opened_leaves};
pub use whole::draw;

// A chain, with its count of nodes, or the first pair of openings that disagrees, with both inputs.
#[derive(Clone, Copy, Debug, PartialEq, Eq)]
pub enum Drawing {
    Chain(u64),
    Clash(Clash),
}
