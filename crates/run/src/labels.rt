// Labels made in order: one step, and as many as a call was granted.
ghost use Rattle.std.specs.Prelude.{◌≡◌, ◌+◌, ◌*◌, ◌^◌, ◌<◌, ◌≤◌, length};
ghost use Rattle.base.specs.Limits.{max_depth};
ghost use Rattle.tree.specs.Nodes.{node};
ghost use Rattle.tree.specs.Walk.{nodes_in};
ghost use Rattle.tree.specs.Store.{store_size};
ghost use Rattle.labelling.specs.Blocks.{most_blocks};
ghost use Rattle.run.specs.Steps.{stamped, stored, stepped, step_blocks, steps, blocks_over};

use crate::Run;
use base::put;
use labelling::{Labelled, Node, Tree};

// Writes a label of levels 0 to m to its slot.
fn keep(store: &mut [u8], memory: u64, made: &Labelled)
    requires { (made.now.node.level ≤ max_depth) × (made.now.node.position < 2 ^ made.now.node.level) × (store_size memory ≤ length store.old) }
    ensures { store.new ≡ stored memory store.old (node made.now.node.level made.now.node.position) made.now.label }
{
    if made.node.level <= memory {
        let at = 32 * ((1u64 << made.node.level) - 1 + made.node.position);
        put(store, at as usize, &made.label);
    }
}

impl Run {
    // One step, and its blocks. Its caller knows that a node is left and that the store is whole.
    pub fn label_one(&mut self, store: &mut [u8]) -> u64
        requires { (self.old.depth ≤ max_depth) × (self.old.made < nodes_in self.old.depth) × (store_size self.old.memory ≤ length store.old) }
        ensures run_after { self.new ≡ (stepped (stamped self.old store.old)).run }
        ensures store_after { store.new ≡ (stepped (stamped self.old store.old)).store }
        ensures value { (result ≡ step_blocks (stamped self.old store.old)) × (result ≤ most_blocks) }
    {
        let tree = Tree {
            statement: self.statement,
            edition: self.edition,
            depth: self.depth,
        };
        let root = Node {
            level: 0,
            position: 0,
        };
        let made = tree.label_next(root, b"", &mut self.held, self.made);
        keep(store, self.memory, &made);
        self.made += 1;
        made.blocks
    }

    // As many steps as are asked for, and their blocks.
    pub(crate) fn label_many(&mut self, count: u64, store: &mut [u8]) -> u64
        requires { (self.old.depth ≤ max_depth) × (self.old.made + count ≤ nodes_in self.old.depth)
            × (store_size self.old.memory ≤ length store.old) }
        ensures run_after { self.new ≡ (steps count (stamped self.old store.old)).run }
        ensures store_after { store.new ≡ (steps count (stamped self.old store.old)).store }
        ensures blocks_value { (result ≡ blocks_over count (stamped self.old store.old)) × (result ≤ most_blocks * count) }
    {
        let mut blocks = 0;
        for _ in 0..count {
            blocks += self.label_one(store);
        }
        blocks
    }
}
