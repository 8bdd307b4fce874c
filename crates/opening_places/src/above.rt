// The labels that stand in front of a leaf's input: those of the left siblings on levels 1 to m, read from the store.
ghost use Rattle.std.specs.Prelude.{◌≡◌, ◌+◌, ◌-◌, ◌*◌, ◌/◌, ◌%◌, ◌^◌, ◌<◌, ◌≤◌, length, take, drop};
ghost use Rattle.std.specs.Int.Count.{ones};
ghost use Rattle.base.specs.Limits.{max_depth};
ghost use Rattle.base.specs.Bytes.{zeros, written};
ghost use Rattle.tree.specs.Nodes.{node};
ghost use Rattle.tree.specs.Store.{slot, store_size};
ghost use Rattle.opening_places.specs.Possible.{Possible, front_size, left_label};
ghost use Rattle.opening_places.specs.Places.{front};

use crate::places::slot_of;
use base::{MAX_MEMORY, put};

const FRONT_SIZE: usize = 32 * MAX_MEMORY as usize;

// The labels as bytes: the first `len` of these. An array and a length and no `Vec`: memory is fixed, there is no heap.
#[derive(Clone, Copy, Debug, PartialEq, Eq)]
pub struct Front {
    pub bytes: [u8; FRONT_SIZE],
    pub len: usize,
}

impl Front {
    pub fn as_slice(&self) -> &[u8]
        requires { self.now.len ≤ front_size }
        ensures { result.now ≡ take self.now.len self.now.bytes }
    {
        &self.bytes[..self.len]
    }
}

// Puts the label of the left sibling of a node, if it has one, behind the first `len` bytes; their number afterwards.
fn add_left(bytes: &mut [u8], len: usize, level: u64, position: u64, store: &[u8]) -> usize
    requires level_le_max_depth { (level ≤ max_depth) × (position < 2 ^ level) × (len + 32 ≤ length bytes.old) }
    requires position_in_bounds { slot (node level position) ≤ length store.now }
    ensures bytes_after { bytes.new ≡ written bytes.old len (left_label store.now level position) }
    ensures value { result ≡ len + 32 * (position % 2) }
{
    if position % 2 == 0 {
        return len;
    }
    let at = slot_of(level, position - 1);
    put(bytes, len, &store[at..at + 32]);
    len + 32
}

// The left siblings' labels of levels 1 to m, smallest level first: as many as the position on level m has one-bits.
pub fn labels_above(depth: u64, memory: u64, leaf: u64, store: &[u8]) -> Front
    requires possible { Possible depth memory leaf }
    requires memory_in_bounds { store_size memory ≤ length store.now }
    ensures len_value { result.len ≡ 32 * ones (leaf / 2 ^ (depth - memory)) }
    ensures bytes_value { take result.len result.bytes ≡ front depth memory leaf store.now }
    ensures bytes_value_2 { drop result.len result.bytes ≡ zeros (front_size - result.len) }
{
    let len = 32 * u64::count_ones(leaf >> (depth - memory)) as usize;
    let mut bytes = [0u8; FRONT_SIZE];
    let mut filled = 0;
    for level in 1..=memory {
        let position = leaf >> (depth - level);
        filled = add_left(&mut bytes, filled, level, position, store);
    }
    Front { bytes, len }
}
