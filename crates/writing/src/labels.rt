// Labels made opening after opening: when one is done the next is begun.
ghost use Rattle.std.specs.Prelude.{◌≡◌, ◌+◌, ◌*◌, ◌≤◌, false, length};
ghost use Rattle.base.specs.Limits.{max_depth, max_challenges};
ghost use Rattle.labelling.specs.Blocks.{most_blocks};
ghost use Rattle.opening.specs.Rows.{nodes_anew};
ghost use Rattle.writing.specs.Possible.{Room, Ready, GoesOn, written_of};
ghost use Rattle.writing.specs.Steps.{may_follow, followed, new_writing, steps, blocks_over, remaining};

use crate::Writing;
use crate::parts::Order;
use file_head::write_head;
use labelling::Tree;
use opening::nodes_anew;

impl Order {
    // Writes the head, and begins openings up to the first that has labels to make.
    pub fn write_first(&self, store: &[u8], file: &mut [u8]) -> Writing
        requires { Room self.now.tree.edition self.now.tree.depth self.now.memory self.now.count 1 (length store.now) (length file.old) }
        ensures value { result ≡ (new_writing self.now.tree.edition self.now.tree.statement self.now.root self.now.tree.depth
            self.now.memory self.now.count store.now file.old).writing }
        ensures file_after { file.new ≡ (new_writing self.now.tree.edition self.now.tree.statement self.now.root self.now.tree.depth
            self.now.memory self.now.count store.now file.old).file }
    {
        let tree = self.tree;
        write_head(
            tree.edition,
            tree.statement,
            self.root,
            tree.depth,
            self.count,
            file,
        )
        .unwrap();
        let mut first = Writing {
            root: self.root,
            count: self.count,
            number: 1,
            opening: self.begin(1, store, file),
        };
        first.follow(store, file);
        first
    }
}

impl Writing {
    // Whether the opening under way is done and is not the last.
    pub(crate) fn may_follow(&self) -> bool
        requires { (self.now.opening.depth ≤ max_depth) × (self.now.opening.memory ≤ self.now.opening.depth) }
        ensures { result ≡ may_follow self.now }
    {
        self.opening.made == nodes_anew(self.opening.depth, self.opening.memory)
            && self.number < self.count
    }

    // Begins the next openings while the one under way is done, all of the same tree.
    fn follow(&mut self, store: &[u8], file: &mut [u8])
        requires { Ready self.old (length store.now) (length file.old) }
        ensures writing_after { self.new ≡ (followed store.now self.old.count (written_of self.old file.old)).writing }
        ensures file_after { file.new ≡ (followed store.now self.old.count (written_of self.old file.old)).file }
        ensures goes_on { GoesOn self.old self.new 0 (length store.now) (length file.old) }
    {
        let order = Order {
            tree: Tree {
                statement: self.opening.statement,
                edition: self.opening.edition,
                depth: self.opening.depth,
            },
            root: self.root,
            memory: self.opening.memory,
            count: self.count,
        };
        // Not a `for`: how many are done at once comes from what each has to make.
        while self.may_follow() {
            self.number += 1;
            self.opening = order.begin(self.number, store, file);
        }
    }

    // Some labels of the opening under way, then the openings that follow it. The blocks are those of the labels.
    fn label_some(&mut self, labels: u64, store: &[u8], file: &mut [u8]) -> u64
        requires ready { Ready self.old (length store.now) (length file.old) × (1 ≤ labels) }
        requires labels_bound { self.old.opening.made + labels ≤ nodes_anew self.old.opening.depth self.old.opening.memory }
        ensures writing_after { self.new ≡ (steps store.now labels (written_of self.old file.old)).writing }
        ensures file_after { file.new ≡ (steps store.now labels (written_of self.old file.old)).file }
        ensures goes_on { GoesOn self.old self.new labels (length store.now) (length file.old) }
        ensures blocks_value { (result ≡ blocks_over store.now labels (written_of self.old file.old)) × (result ≤ most_blocks * labels) }
    {
        let blocks = self.label_part(labels, store, file);
        self.follow(store, file);
        blocks
    }

    // The labels that remain: of the opening under way, and of those after it.
    pub(crate) fn labels_left(&self) -> u64
        requires depth_le_max_depth { (self.now.opening.depth ≤ max_depth) × (self.now.opening.memory ≤ self.now.opening.depth) }
        requires made_bound { self.now.opening.made ≤ nodes_anew self.now.opening.depth self.now.opening.memory }
        requires number_le_count { (self.now.number ≤ self.now.count) × (self.now.count ≤ max_challenges) }
        ensures { result ≡ remaining self.now }
    {
        let anew = nodes_anew(self.opening.depth, self.opening.memory);
        (self.count - self.number) * anew + (anew - self.opening.made)
    }

    // As many labels as are asked for, opening after opening, and their blocks.
    pub(crate) fn label_many(&mut self, labels: u64, store: &[u8], file: &mut [u8]) -> u64
        requires ready { Ready self.old (length store.now) (length file.old) × (may_follow self.old ≡ false) }
        requires labels_bound { labels ≤ remaining self.old }
        ensures writing_after { self.new ≡ (steps store.now labels (written_of self.old file.old)).writing }
        ensures file_after { file.new ≡ (steps store.now labels (written_of self.old file.old)).file }
        ensures blocks_value { (result ≡ blocks_over store.now labels (written_of self.old file.old)) × (result ≤ most_blocks * labels) }
    {
        let mut blocks = 0;
        let mut left = labels;
        // Not a `for`: how many labels a turn makes comes from what the opening under way has left.
        while 0 < left {
            let anew = nodes_anew(self.opening.depth, self.opening.memory);
            let chunk = left.min(anew - self.opening.made);
            blocks += self.label_some(chunk, store, file);
            left -= chunk;
        }
        blocks
    }
}
