// The table of both child labels, 64 bytes for a node on an opening's way and 2,560 for an opening, the lowest node first.
ghost use Rattle.std.specs.Prelude.{◌≡◌, ◌+◌, ◌-◌, ◌*◌, ◌/◌, ◌^◌, ◌<◌, ◌≤◌, length};
ghost use Rattle.tree.specs.Nodes.{node};
ghost use Rattle.tree.specs.Labels.{document_input, in_labels};
ghost use Rattle.tree.specs.Disagreement.{shared, way_node};
ghost use Rattle.compare.specs.Table.{Inside, cell, leaf_of, row_size};

use base::{MAX_DEPTH, MAX_LEAVES};
use labelling::{Node, Tree};

// The bytes of a row, and of the table.
pub const ROW_SIZE: usize = 64 * MAX_DEPTH as usize;

pub const TABLE_SIZE: usize = MAX_LEAVES * ROW_SIZE;

// The leaves opened, and the cells of their openings.
#[derive(Clone, Copy)]
pub struct Table<'a> {
    pub depth: u64,
    pub leaves: &'a [u64],
    pub cells: &'a [u8],
    ghost inside: { Inside depth leaves.now cells.now },
}

impl<'a> Table<'a> {
    // The child labels of the node of this level on the way of opening i.
    pub fn cell(&self, i: u64, level: u64) -> &'a [u8]
        requires { (1 ≤ i) × (i ≤ length self.now.leaves.now) × (level < self.now.depth) }
        ensures value { result.now ≡ cell self.now.depth self.now.cells.now i level }
        ensures size { length result.now ≡ 64 }
    {
        let at = ROW_SIZE * (i - 1) as usize + 64 * (self.depth - (level + 1)) as usize;
        &self.cells[at..at + 64]
    }

    // The position of that node.
    fn position(&self, i: u64, level: u64) -> u64
        requires { (1 ≤ i) × (i ≤ length self.now.leaves.now) × (level ≤ self.now.depth) }
        ensures { result ≡ leaf_of self.now.leaves.now i / 2 ^ (self.now.depth - level) }
    {
        self.leaves[(i - 1) as usize] >> (self.depth - level)
    }

    // Whether the ways of openings i and j share their node of this level.
    pub fn shares(&self, i: u64, j: u64, level: u64) -> bool
        requires { (1 ≤ i) × (i < j) × (j ≤ length self.now.leaves.now) × (level ≤ self.now.depth) }
        ensures { result ≡ shared self.now.depth (leaf_of self.now.leaves.now i) (leaf_of self.now.leaves.now j) level }
    {
        self.position(i, level) == self.position(j, level)
    }

    // The hash input of opening i at the node of this level on its way, over both child labels.
    pub fn input(&self, tree: &Tree, i: u64, level: u64) -> [u8; 105]
        requires same_depth { tree.now.depth ≡ self.now.depth }
        requires within { (1 ≤ i) × (i ≤ length self.now.leaves.now) × (level < self.now.depth) }
        ensures { result
            ≡ document_input tree.now.edition self.now.depth tree.now.statement (way_node self.now.depth (leaf_of self.now.leaves.now i) level)
            (in_labels (cell self.now.depth self.now.cells.now i level)) }
    {
        let target = Node {
            level,
            position: self.position(i, level),
        };
        let mut input = [0u8; 105];
        tree.put_input(&mut input, target, b"", self.cell(i, level));
        input
    }
}
