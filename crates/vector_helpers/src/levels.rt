// The edges of the memory level's limit (W-209), which are tried on runs, openings and files.
ghost use Rattle.std.specs.Prelude.{◌≡◌, ◌/◌, ◌%◌, [], ◌∷◌, slice_index};

// A depth, a memory level and a store's length.
#[derive(Clone, Copy, Debug, PartialEq, Eq)]
pub struct LevelEdge {
    pub depth: u64,
    pub memory: u64,
    pub store: usize,
}

// Editions that exist or not.
pub const EDITIONS: [u64; 6] = [0, 1, 2, 3, 4294967298, u64::MAX];

pub const LEVEL_EDGES: usize = 60;

// The stores are one for every level, one a byte short of it, and one a byte short of level 13's.
pub fn level_edge(i: usize) -> LevelEdge
    ensures depth_value { result.depth ≡ slice_index (13 ∷ 14 ∷ 15 ∷ 40 ∷ []) (i / 15 % 4) }
    ensures memory_value { result.memory ≡ slice_index (13 ∷ 14 ∷ 15 ∷ 20 ∷ 21 ∷ []) (i / 3 % 5) }
    ensures store_value { result.store ≡ slice_index (1048544 ∷ 1048543 ∷ 524255 ∷ []) (i % 3) }
{
    let depths: [u64; 4] = [13, 14, 15, 40];
    let levels: [u64; 5] = [13, 14, 15, 20, 21];
    let stores: [usize; 3] = [1048544, 1048543, 524255];
    LevelEdge {
        depth: depths[i / 15 % 4],
        memory: levels[i / 3 % 5],
        store: stores[i % 3],
    }
}
