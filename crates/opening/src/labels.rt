// Labels made anew, in order: one step, and as many as a call was granted.
ghost use Rattle.std.specs.Prelude.{◌≡◌, ◌+◌, ◌-◌, ◌*◌, ◌/◌, ◌^◌, ◌<◌, ◌≤◌, length};
ghost use Rattle.std.specs.Int.Count.{ones};
ghost use Rattle.tree.specs.Store.{store_size};
ghost use Rattle.tree.specs.Openings.{opening_size};
ghost use Rattle.labelling.specs.Step.{held_with};
ghost use Rattle.labelling.specs.Blocks.{most_blocks};
ghost use Rattle.opening.specs.Rows.{nodes_anew};
ghost use Rattle.opening_places.specs.Possible.{Possible};
ghost use Rattle.opening.specs.Names.{open_of, next_anew, label_anew, blocks_anew};
ghost use Rattle.opening_places.specs.Places.{ancestor, placed};
ghost use Rattle.opening.specs.Steps.{opening_of, steps, blocks_over};

use crate::Opening;
use labelling::{Node, Tree};
use opening_places::{labels_above, put_label};

impl Opening {
    // One step, with the left siblings' labels in front, and its blocks. Its caller knows that a node is left.
    fn label_one(&mut self, front: &[u8], out: &mut [u8]) -> u64
        requires possible { Possible self.old.depth self.old.memory self.old.leaf × (self.old.made < nodes_anew self.old.depth self.old.memory) }
        requires front_len { (length front.now ≡ 32 * ones (self.old.leaf / 2 ^ (self.old.depth - self.old.memory)))
            × (opening_size self.old.depth ≤ length out.old) }
        ensures opening_after { self.new
            ≡ opening_of self.old.edition self.old.statement self.old.depth self.old.memory self.old.leaf (self.old.made + 1)
            (held_with (self.old.depth - self.old.memory) (ancestor self.old.depth self.old.leaf self.old.memory) self.old.held
            (next_anew self.old.depth self.old.memory self.old.leaf self.old.made)
            (label_anew self.old.edition self.old.statement self.old.depth self.old.memory self.old.leaf front.now self.old.held self.old.made)) }
        ensures out_after { out.new
            ≡ placed self.old.depth self.old.leaf out.old (next_anew self.old.depth self.old.memory self.old.leaf self.old.made)
            (label_anew self.old.edition self.old.statement self.old.depth self.old.memory self.old.leaf front.now self.old.held self.old.made) }
        ensures value { (result
            ≡ blocks_anew self.old.edition self.old.statement self.old.depth self.old.memory self.old.leaf front.now self.old.held self.old.made)
            × (result ≤ most_blocks) }
    {
        let tree = Tree {
            statement: self.statement,
            edition: self.edition,
            depth: self.depth,
        };
        let top = Node {
            level: self.memory,
            position: self.leaf >> (self.depth - self.memory),
        };
        let made = tree.label_next(top, front, &mut self.held, self.made);
        put_label(
            self.depth,
            self.leaf,
            out,
            made.node.level,
            made.node.position,
            &made.label,
        );
        self.made += 1;
        made.blocks
    }

    // As many steps as are asked for, and their blocks.
    pub(crate) fn label_many(&mut self, count: u64, store: &[u8], out: &mut [u8]) -> u64
        requires possible { Possible self.old.depth self.old.memory self.old.leaf
            × (self.old.made + count ≤ nodes_anew self.old.depth self.old.memory) }
        requires memory_in_bounds { (store_size self.old.memory ≤ length store.now) × (opening_size self.old.depth ≤ length out.old) }
        ensures opening_after { self.new ≡ (steps store.now count (open_of self.old out.old)).opening }
        ensures out_after { out.new ≡ (steps store.now count (open_of self.old out.old)).out }
        ensures blocks_value { (result ≡ blocks_over store.now count (open_of self.old out.old)) × (result ≤ most_blocks * count) }
    {
        let above = labels_above(self.depth, self.memory, self.leaf, store);
        let front = above.as_slice();
        let mut blocks = 0;
        for _ in 0..count {
            blocks += self.label_one(front, out);
        }
        blocks
    }
}
