// A node's label by document 01's rule, and the next label of a subtree whose nodes are labelled in order, for runs and openings alike.
#![tactic(auto)]

mod next; // next.rt: one step
mod rule; // rule.rt: a label from its parents' labels
mod walk; // walk.rt: the next node from the number of nodes labelled

pub use next::Labelled;
pub use rule::Tree;
pub use walk::Node;

// What a call did: the labels that it made, and the 64-byte blocks that were compressed for them.
#[derive(Clone, Copy, Debug, PartialEq, Eq)]
pub struct Work {
    pub labels: u64,
    pub blocks: u64,
}
