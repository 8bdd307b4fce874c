// An opening in its part of the file: begun, and labelled.
ghost use Rattle.std.specs.Prelude.{◌≡◌, ◌+◌, ◌*◌, ◌≤◌, length};
ghost use Rattle.base.specs.Limits.{max_depth, max_challenges};
ghost use Rattle.tree.specs.Openings.{opening_size};
ghost use Rattle.labelling.specs.Blocks.{most_blocks};
ghost use Rattle.opening.specs.Rows.{nodes_anew};
ghost use Rattle.file_head.specs.Layout.{head_size, opening_from, file_size};
ghost use Rattle.writing.specs.Possible.{Room, Ready, written_of, labelled, labelled_blocks};
ghost use Rattle.writing.specs.Steps.{begun};

use crate::Writing;
use file_head::{challenge_leaf, file_size};
use labelling::Tree;
use opening::Opening;

// What the openings of a file have in common.
#[derive(Clone, Copy, Debug, PartialEq, Eq)]
pub struct Order {
    pub tree: Tree,
    pub root: [u8; 32],
    pub memory: u64,
    pub count: u64,
}

// Where opening i's part begins: the openings from number i on end the file.
fn part_start(n: u64, t: u64, i: u64) -> usize
    requires { (n ≤ max_depth) × (1 ≤ i) × (i ≤ t) × (t ≤ max_challenges) }
    ensures value { result ≡ opening_from n (head_size n t) i }
    ensures n_bound { result + opening_size n ≤ file_size n t }
{
    file_size(n, t) - ((t + 1 - i) * (32 * (n + 1))) as usize
}

impl Order {
    // Begins an opening: its challenge picks the leaf, and what the store holds of it is copied to its part. Its callers know that it has
    // room.
    pub fn begin(&self, number: u64, store: &[u8], file: &mut [u8]) -> Opening
        requires { Room self.now.tree.edition self.now.tree.depth self.now.memory self.now.count number (length store.now) (length file.old) }
        ensures value { result ≡ (begun self.now.tree.edition self.now.tree.statement self.now.root self.now.tree.depth self.now.memory
            self.now.count store.now number file.old).writing.opening }
        ensures file_after { file.new ≡ (begun self.now.tree.edition self.now.tree.statement self.now.root self.now.tree.depth
            self.now.memory self.now.count store.now number file.old).file }
    {
        let tree = self.tree;
        let leaf = challenge_leaf(tree.edition, tree.depth, tree.statement, self.root, number);
        let from = part_start(tree.depth, self.count, number);
        let end = from + (32 * (tree.depth + 1)) as usize;
        Opening::start(tree, self.memory, leaf, store, &mut file[from..end]).unwrap()
    }
}

impl Writing {
    // Labels of the opening under way, at most as many as it has left, and their blocks.
    pub(crate) fn label_part(&mut self, labels: u64, store: &[u8], file: &mut [u8]) -> u64
        requires ready { Ready self.old (length store.now) (length file.old) }
        requires labels_bound { self.old.opening.made + labels ≤ nodes_anew self.old.opening.depth self.old.opening.memory }
        ensures writing_after { self.new ≡ (labelled store.now labels (written_of self.old file.old)).writing }
        ensures file_after { file.new ≡ (labelled store.now labels (written_of self.old file.old)).file }
        ensures blocks_value { (result ≡ labelled_blocks store.now labels (written_of self.old file.old)) × (result ≤ most_blocks * labels) }
    {
        let depth = self.opening.depth;
        let from = part_start(depth, self.count, self.number);
        let end = from + (32 * (depth + 1)) as usize;
        let work = self
            .opening
            .advance(labels, store, &mut file[from..end])
            .unwrap();
        work.blocks
    }
}
