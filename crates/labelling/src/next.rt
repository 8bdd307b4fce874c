// One step of labelling a subtree in order, for runs and openings alike.
ghost use Rattle.std.specs.Prelude.{◌≡◌, ◌++◌, ◌+◌, ◌-◌, ◌*◌, ◌%◌, ◌^◌, ◌<◌, ◌≤◌, length, take, drop};
ghost use Rattle.std.specs.Int.Count.{ones};
ghost use Rattle.base.specs.Limits.{max_depth, held_size};
ghost use Rattle.base.specs.Bytes.{zeros, written};
ghost use Rattle.tree.specs.Nodes.{node};
ghost use Rattle.tree.specs.Walk.{nodes_in};
ghost use Rattle.tree.specs.Labels.{label_by, in_labels};
ghost use Rattle.labelling.specs.Rule.{stamp_rule};
ghost use Rattle.labelling.specs.Step.{next_node, next_label, held_with};
ghost use Rattle.labelling.specs.Blocks.{next_blocks, most_blocks};

use crate::rule::{Tree, label_blocks};
use crate::walk::Node;
use base::put;

// A node with its label, and the blocks that were compressed for it.
#[derive(Clone, Copy, Debug, PartialEq, Eq)]
pub struct Labelled {
    pub node: Node,
    pub label: [u8; 32],
    pub blocks: u64,
}

// The place of a node's label among the held ones, this many levels below the subtree's own node. A leaf's in the whole tree is the number
// of its parents.
fn place(below: u64, position: u64) -> usize
    requires { below ≤ max_depth }
    ensures { (result ≡ ones (position % 2 ^ below)) × (result ≤ below) }
{
    let mask = (1u64 << below) - 1;
    u64::count_ones(position & mask) as usize
}

impl Tree {
    // A leaf has as many parents as its position has one-bits: those in front of the subtree, and then the held labels before its
    // place, which it takes.
    fn label_leaf(&self, leaf: Node, front: &[u8], held: &mut [u8]) -> [u8; 32]
        requires level_le_depth { (leaf.level ≤ self.now.depth) × (self.now.depth ≤ max_depth) × (ones leaf.position ≤ max_depth)
            × (length held.old ≡ held_size) }
        requires front_len_bound { (length front.now ≤ 32 * ones leaf.position) × (length front.now % 32 ≡ 0) }
        ensures value { result
            ≡ label_by (stamp_rule self.now.edition self.now.depth self.now.statement) (node leaf.level leaf.position)
            (in_labels (front.now ++ take (32 * ones leaf.position - length front.now) held.old)) }
        ensures held_after { held.new ≡ written held.old (32 * ones leaf.position - length front.now) result }
    {
        let parents = u64::count_ones(leaf.position) as usize;
        let at = 32 * parents - front.len();
        let label = self.label(leaf, parents, front, &held[..at]);
        put(held, at, &label);
        label
    }

    // An inner node hashes the two held labels from its place on, takes that place, and the second is given up.
    fn label_inner(&self, inner: Node, held: &mut [u8], at: usize) -> [u8; 32]
        requires { (inner.level ≤ self.now.depth) × (self.now.depth ≤ max_depth) × (at + 64 ≤ held_size) × (length held.old ≡ held_size) }
        ensures value { result
            ≡ label_by (stamp_rule self.now.edition self.now.depth self.now.statement) (node inner.level inner.position)
            (in_labels (take 64 (drop at held.old))) }
        ensures held_after { held.new ≡ written (written held.old at result) (at + 32) (zeros 32) }
    {
        let label = self.label(inner, 2, b"", &held[at..at + 64]);
        put(held, at, &label);
        put(held, at + 32, &[0u8; 32]);
        label
    }

    // Labels the next node of the subtree below `top`, when `made` of its nodes are labelled. Its callers know that one is left, and that
    // front holds a label for each one-bit of top's position.
    pub fn label_next(&self, top: Node, front: &[u8], held: &mut [u8], made: u64) -> Labelled
        requires depth_bound { (top.level ≤ self.now.depth) × (self.now.depth ≤ max_depth) × (top.position < 2 ^ top.level)
            × (made < nodes_in (self.now.depth - top.level)) }
        requires front_len { (length front.now ≡ 32 * ones top.position) × (length held.old ≡ held_size) }
        ensures node_value { node result.node.level result.node.position
            ≡ next_node (self.now.depth - top.level) (node top.level top.position) made }
        ensures label_value { result.label
            ≡ next_label self.now.edition self.now.statement (self.now.depth - top.level) (node top.level top.position) front.now held.old made }
        ensures held_after { held.new
            ≡ held_with (self.now.depth - top.level) (node top.level top.position) held.old
            (node result.node.level result.node.position) result.label }
        ensures blocks_value { (result.blocks
            ≡ next_blocks self.now.edition self.now.statement (self.now.depth - top.level) (node top.level top.position) front.now held.old made)
            × (result.blocks ≤ most_blocks) }
    {
        let node = top.next_below(self.depth - top.level, made);
        if node.level == self.depth {
            Labelled {
                node,
                label: self.label_leaf(node, front, held),
                blocks: label_blocks(place(self.depth, node.position)),
            }
        } else {
            let at = 32 * place(node.level - top.level, node.position);
            Labelled {
                node,
                label: self.label_inner(node, held, at),
                blocks: label_blocks(2),
            }
        }
    }
}
