// Document 01, 'An opening is right if its leaf label is the hash of its left siblings there, and hashing upward gives the root.'
ghost use Rattle.std.specs.Prelude.{◌≡◌, [], ◌+◌, ◌-◌, ◌*◌, ◌/◌, ◌%◌, ◌^◌, ◌<◌, ◌≤◌, length};
ghost use Rattle.base.specs.Limits.{max_depth};
ghost use Rattle.base.specs.Choice.{pick, odd};
ghost use Rattle.base.specs.Bytes.{written};
ghost use Rattle.base.specs.Number.{outcome_number};
ghost use Rattle.tree.specs.Nodes.{node};
ghost use Rattle.tree.specs.Labels.{label_by};
ghost use Rattle.tree.specs.Openings.{child_labels, computed, input_at, opening_size};
ghost use Rattle.labelling.specs.Rule.{stamp_rule};
ghost use Rattle.opening_check.specs.OpeningCheck.{given_by, right_row, opening_row};

use base::{MAX_DEPTH, MAX_EDITION, Refusal, beyond, label_at, put, same};
use labelling::{Node, Tree};
use std::cmp::Ordering;

// The label of the sibling of this height is put behind len gathered bytes where it is a left one. How many are gathered then.
fn gather(gathered: &mut [u8], len: usize, leaf: u64, height: u64, bytes: &[u8]) -> usize
    requires { (height < max_depth) × (len + 32 ≤ length gathered.old) × (opening_size (height + 1) ≤ length bytes.now) }
    ensures gathered_after { gathered.new
        ≡ written gathered.old len (pick (odd (leaf / 2 ^ height)) (given_by bytes.now (height + 1)) []) }
    ensures value { result ≡ len + 32 * (leaf / 2 ^ height % 2) }
{
    if (leaf >> height) % 2 == 1 {
        let at = 32 * (height + 1) as usize;
        put(gathered, len, &bytes[at..at + 32]);
        return len + 32;
    }
    len
}

// The hash that the leaf's label must be: over the given labels of the left siblings, as many as the leaf's position has one-bits. They are
// gathered smallest level first, and `label` puts them in the edition's order.
fn leaf_label(tree: &Tree, leaf: u64, bytes: &[u8]) -> [u8; 32]
    requires { (tree.now.depth ≤ max_depth) × (leaf < 2 ^ tree.now.depth) × (length bytes.now ≡ opening_size tree.now.depth) }
    ensures { result ≡ (stamp_rule tree.now.edition tree.now.depth tree.now.statement).hash
        (input_at (stamp_rule tree.now.edition tree.now.depth tree.now.statement) tree.now.depth leaf (given_by bytes.now) (node tree.now.depth leaf)) }
{
    let parents = u64::count_ones(leaf) as usize;
    // Fixed memory: the labels of as many parents as there are levels at most.
    let mut gathered = [0u8; 1280];
    let mut len = 0;
    for height in (0..tree.depth).rev() {
        len = gather(&mut gathered, len, leaf, height, bytes);
    }
    let target = Node {
        level: tree.depth,
        position: leaf,
    };
    tree.label(target, parents, b"", &gathered[..32 * parents])
}

// The label of the node above a child, from the child's label and its sibling's.
pub fn label_above(tree: &Tree, child: Node, label: [u8; 32], beside: &[u8]) -> [u8; 32]
    requires { (1 ≤ child.level) × (child.level ≤ tree.now.depth + 1) × (tree.now.depth ≤ max_depth) × (length beside.now ≡ 32) }
    ensures { result ≡ label_by (stamp_rule tree.now.edition tree.now.depth tree.now.statement)
        (node (child.level - 1) (child.position / 2)) (child_labels (odd child.position) label beside.now) }
{
    let above = Node {
        level: child.level - 1,
        position: child.position / 2,
    };
    if child.position % 2 == 1 {
        tree.label(above, 2, beside, &label)
    } else {
        tree.label(above, 2, &label, beside)
    }
}

// The root's label, hashed upward from the given label of the leaf.
fn climb(tree: &Tree, leaf: u64, bytes: &[u8]) -> [u8; 32]
    requires { (1 ≤ tree.now.depth) × (tree.now.depth ≤ max_depth) × (length bytes.now ≡ opening_size tree.now.depth) }
    ensures { result
        ≡ computed (stamp_rule tree.now.edition tree.now.depth tree.now.statement) tree.now.depth leaf (given_by bytes.now) tree.now.depth }
{
    let mut label = label_at(bytes, 0);
    for height in 0..tree.depth {
        let child = Node {
            level: tree.depth - height,
            position: leaf >> height,
        };
        let at = 32 * (height + 1) as usize;
        // The kit takes an array from a call only into a local of its own.
        let above = label_above(tree, child, label, &bytes[at..at + 32]);
        label = above;
    }
    label
}

// 14, 15. Its callers know the depth, the position and the length.
#[tactic(auto, unfolding(crate::specs::OpeningCheck::right_row))]
pub fn right(tree: &Tree, leaf: u64, root: [u8; 32], bytes: &[u8]) -> Result<(), Refusal>
    requires { (1 ≤ tree.now.depth) × (tree.now.depth ≤ max_depth) × (leaf < 2 ^ tree.now.depth)
        × (length bytes.now ≡ opening_size tree.now.depth) }
    ensures { outcome_number result ≡ right_row tree.now.edition tree.now.statement tree.now.depth leaf root bytes.now }
{
    if !same(&label_at(bytes, 0), &leaf_label(tree, leaf, bytes)) {
        return Err(Refusal::LeafLabel);
    }
    if !same(&climb(tree, leaf, bytes), &root) {
        return Err(Refusal::Root);
    }
    Ok(())
}

// One opening checked.
#[tactic(auto, unfolding(crate::specs::OpeningCheck::opening_row, crate::specs::OpeningCheck::right_row))]
pub fn check_opening(tree: &Tree, leaf: u64, root: [u8; 32], bytes: &[u8]) -> Result<(), Refusal>
    ensures { outcome_number result ≡ opening_row tree.now.edition tree.now.statement tree.now.depth leaf root bytes.now }
{
    if beyond(MAX_EDITION, tree.edition) {
        return Err(Refusal::Edition);
    }
    if beyond(MAX_DEPTH, tree.depth) {
        return Err(Refusal::Depth);
    }
    if 1u64 << tree.depth <= leaf {
        return Err(Refusal::LeafPosition);
    }
    let size = 32 * (tree.depth + 1) as usize;
    match bytes.len().cmp(&size) {
        Ordering::Less => Err(Refusal::BytesEnd),
        Ordering::Equal => right(tree, leaf, root, bytes),
        Ordering::Greater => Err(Refusal::BytesLeft),
    }
}
