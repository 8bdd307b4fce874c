// The places of an opening: a label put where it belongs, and what the store holds copied.
ghost use Rattle.std.specs.Prelude.{◌≡◌, ◌+◌, ◌^◌, ◌<◌, ◌≤◌, length};
ghost use Rattle.base.specs.Limits.{max_depth};
ghost use Rattle.tree.specs.Nodes.{node};
ghost use Rattle.tree.specs.Store.{slot, store_size};
ghost use Rattle.tree.specs.Openings.{sibling, opening_size};
ghost use Rattle.opening_places.specs.Possible.{Possible};
ghost use Rattle.opening_places.specs.Places.{label_in, placed, copied, copied_all};

use base::put;

// The position of the other child of the same node.
fn sibling_of(position: u64) -> u64
    ensures { result ≡ sibling position }
{
    if position % 2 == 1 {
        position - 1
    } else {
        position + 1
    }
}

// Where the store has a node's label.
pub fn slot_of(level: u64, position: u64) -> usize
    requires { (level ≤ max_depth) × (position < 2 ^ level) }
    ensures { result ≡ slot (node level position) }
{
    (32 * ((1u64 << level) - 1 + position)) as usize
}

// Puts a node's label in its place if it belongs to the opening of the leaf.
pub fn put_label(depth: u64, leaf: u64, out: &mut [u8], level: u64, position: u64, label: &[u8])
    requires depth_le_max_depth { (depth ≤ max_depth) × (1 ≤ level) × (level ≤ depth) }
    requires depth_in_bounds { (opening_size depth ≤ length out.old) × (length label.now ≡ 32) }
    ensures { out.new ≡ placed depth leaf out.old (node level position) label.now }
{
    if level == depth && position == leaf {
        put(out, 0, label);
    } else if position == sibling_of(leaf >> (depth - level)) {
        put(out, 32 * (depth - level + 1) as usize, label);
    }
}

// Copies a node's label from the store.
fn copy_label(depth: u64, leaf: u64, level: u64, position: u64, store: &[u8], out: &mut [u8])
    requires depth_le_max_depth { (depth ≤ max_depth) × (1 ≤ level) × (level ≤ depth) × (position < 2 ^ level) }
    requires position_in_bounds { (slot (node level position) + 32 ≤ length store.now) × (opening_size depth ≤ length out.old) }
    ensures { out.new ≡ placed depth leaf out.old (node level position) (label_in store.now (node level position)) }
{
    let at = slot_of(level, position);
    put_label(depth, leaf, out, level, position, &store[at..at + 32]);
}

// Copies the siblings of levels 1 to m, from level 1 on.
fn copy_siblings(depth: u64, memory: u64, leaf: u64, store: &[u8], out: &mut [u8])
    requires possible { Possible depth memory leaf }
    requires memory_in_bounds { (store_size memory ≤ length store.now) × (opening_size depth ≤ length out.old) }
    ensures { out.new ≡ copied depth leaf store.now out.old memory }
{
    for level in 1..=memory {
        let beside = sibling_of(leaf >> (depth - level));
        copy_label(depth, leaf, level, beside, store, out);
    }
}

// Copies what the store holds of the opening: with m = n the leaf's label too.
pub fn copy_held(depth: u64, memory: u64, leaf: u64, store: &[u8], out: &mut [u8])
    requires possible { Possible depth memory leaf }
    requires memory_in_bounds { (store_size memory ≤ length store.now) × (opening_size depth ≤ length out.old) }
    ensures { out.new ≡ copied_all depth memory leaf store.now out.old }
{
    copy_siblings(depth, memory, leaf, store, out);
    if memory == depth {
        copy_label(depth, leaf, depth, leaf, store, out);
    }
}
