// Document 01, 'The tree': a label is SHA-256 of the statement, the level, the position and the parents' labels.
ghost use Rattle.std.specs.Prelude.{◌≡◌, ◌++◌, reverse, ◌+◌, ◌-◌, ◌*◌, ◌%◌, ◌≤◌, length, take};
ghost use Rattle.base.specs.Limits.{max_depth, max_label_input};
ghost use Rattle.sha256.specs.Padding.{blocks_of};
ghost use Rattle.sha256.specs.Digest.{digest};
ghost use Rattle.tree.specs.Nodes.{node};
ghost use Rattle.tree.specs.Labels.{label_by, ordered, tag, document_input, in_labels};
ghost use Rattle.base.specs.Bytes.{zeros, joined, written};
ghost use Rattle.labelling.specs.Rule.{stamp_rule};
ghost use Rattle.labelling.specs.Buffer.{input_space, padded_in};
ghost use Rattle.labelling.specs.Blocks.{most_blocks};

use crate::walk::Node;
use base::{HELD_SIZE, big_endian, label_at, put};
use sha256::{block_count, digest_padded};

// What a tree's labels have in common.
#[derive(Clone, Copy, Debug, PartialEq, Eq)]
pub struct Tree {
    pub statement: [u8; 32],
    pub edition: u64,
    pub depth: u64,
}

// The longest input with its padding: specs/Buffer.antt.
const INPUT_SPACE: usize = 64 * ((9 + HELD_SIZE + 8) / 64 + 1);

// Pads a message of len bytes that stands at the front of zeros, and hashes it (FIPS 180-4, 5.1.1).
fn hash_front(input: &mut [u8], len: usize) -> [u8; 32]
    requires len_le_max_label_input { len ≤ max_label_input }
    requires input_value { input.old ≡ take len input.old ++ zeros (input_space - len) }
    ensures value { result ≡ digest (take len input.old) }
    ensures input_after { input.new ≡ padded_in input_space (take len input.old) }
{
    let end = 64 * block_count(len);
    let count = big_endian(8 * len as u64);
    put(input, len, &[128]);
    put(input, end - 8, &count);
    digest_padded(&input[..end])
}

// The blocks that `label` compresses for a node with so many parents.
pub fn label_blocks(parents: usize) -> u64
    requires { parents ≤ max_depth }
    ensures { (result ≡ blocks_of (41 + 32 * parents)) × (result ≤ most_blocks) }
{
    block_count(41 + 32 * parents) as u64
}

// Writes the labels that lie in src end to end over dst from `at` on, the last first.
fn put_last_first(dst: &mut [u8], at: usize, src: &[u8])
    requires { (length src.now % 32 ≡ 0) × (at + length src.now ≤ length dst.old) }
    ensures { dst.new ≡ written dst.old at (joined (reverse (in_labels src.now))) }
{
    let mut to = at;
    for label in src.rchunks(32) {
        // Through an array of its own, so that the copy is four wide moves: the compiler cannot see that dst and src are apart.
        let one = label_at(label, 0);
        put(dst, to, &one);
        to += 32;
    }
}

impl Tree {
    // The byte after the statement, by the edition and the depth.
    fn tag(&self, level: u64) -> u8
        requires { (level ≤ self.now.depth) × (self.now.depth ≤ max_depth) }
        ensures { result ≡ tag self.now.edition self.now.depth level }
    {
        level as u8
    }

    // Writes the labels of front and rest behind the head, in the order in which the edition hashes them.
    fn put_labels(&self, input: &mut [u8], front: &[u8], rest: &[u8])
        requires { (length front.now % 32 ≡ 0) × (length rest.now % 32 ≡ 0) × (41 + length front.now + length rest.now ≤ length input.old) }
        ensures { input.new
            ≡ written input.old 41 (joined (ordered self.now.edition (in_labels (front.now ++ rest.now)))) }
    {
        if self.edition == 1 {
            put(input, 41, front);
            put(input, 41 + front.len(), rest);
        } else {
            put_last_first(input, 41, rest);
            put_last_first(input, 41 + rest.len(), front);
        }
    }

    // Lays out a node's hash input at the front of zeros: the head, then the labels of its parents in the order hashed. They are those
    // of front and then those of rest.
    pub fn put_input(&self, input: &mut [u8], target: Node, front: &[u8], rest: &[u8])
        requires level_le_depth { (target.level ≤ self.now.depth) × (self.now.depth ≤ max_depth) × (length front.now % 32 ≡ 0) × (length rest.now % 32 ≡ 0) }
        requires input_value { (input.old ≡ zeros (length input.old)) × (41 + length front.now + length rest.now ≤ length input.old) }
        ensures { input.new
            ≡ document_input self.now.edition self.now.depth self.now.statement (node target.level target.position) (in_labels (front.now ++ rest.now))
            ++ zeros (length input.old - (41 + length front.now + length rest.now)) }
    {
        put(input, 0, &self.statement);
        put(input, 32, &[self.tag(target.level)]);
        put(input, 33, &big_endian(target.position));
        self.put_labels(input, front, rest);
    }

    // The label of a node with so many parents, whose labels are those of front and then those of rest. Their number gives the length
    // of the input: 41 + 32 × parents. A zeroed local buffer takes it, and its blocks are hashed where they lie.
    pub fn label(&self, target: Node, parents: usize, front: &[u8], rest: &[u8]) -> [u8; 32]
        requires level_le_depth { (target.level ≤ self.now.depth) × (self.now.depth ≤ max_depth) × (parents ≤ max_depth) }
        requires rest_len { (length front.now + length rest.now ≡ 32 * parents) × (length front.now % 32 ≡ 0) }
        ensures { result
            ≡ label_by (stamp_rule self.now.edition self.now.depth self.now.statement) (node target.level target.position) (in_labels (front.now ++ rest.now)) }
    {
        let mut input = [0u8; INPUT_SPACE];
        self.put_input(&mut input, target, front, rest);
        hash_front(&mut input, 41 + 32 * parents)
    }
}
