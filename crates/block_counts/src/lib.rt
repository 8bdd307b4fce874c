// The blocks of labels, told without making them: of a whole run, of an opening, and of all that a proof file takes.
#![tactic(auto)]

ghost use Rattle.std.specs.Prelude.{◌≡◌, ◌+◌, ◌^◌, ◌<◌, ◌≤◌};
ghost use Rattle.base.specs.Limits.{max_depth, max_challenges, IsDepth, IsMemory};
ghost use Rattle.tree.specs.Nodes.{node, order_below};
ghost use Rattle.opening_places.specs.Possible.{Possible};
ghost use Rattle.block_theory.specs.Sums.{blocks_sum, tree_blocks, opening_blocks};
ghost use Rattle.block_counts.specs.Seal.{seal_blocks};

use file_head::challenge_leaf;

// Those of the subtree of this height, from 1, at (level, position), by the closed formula.
fn subtree_blocks(height: u64, level: u64, position: u64) -> u64
    requires { (1 ≤ height) × (level + height ≤ max_depth) × (position < 2 ^ level) }
    ensures value { result ≡ blocks_sum (level + height) (order_below height (node level position)) }
    ensures upper_bound { result < 2 ^ 46 }
{
    let lefts = u64::count_ones(position) as u64;
    (2 * lefts + height + 13) * (1u64 << height) / 4 - 2
}

// Those of a whole run.
pub fn tree_blocks(depth: u64) -> u64
    requires { IsDepth depth }
    ensures value { result ≡ tree_blocks depth }
    ensures upper_bound { result < 2 ^ 46 }
{
    subtree_blocks(depth, 0, 0)
}

// Those of an opening: of the subtree at the leaf's ancestor on level m, but for that node.
pub fn opening_blocks(depth: u64, memory: u64, leaf: u64) -> u64
    requires { Possible depth memory leaf }
    ensures value { result ≡ opening_blocks depth memory leaf }
    ensures upper_bound { result < 2 ^ 46 }
{
    if memory == depth {
        return 0;
    }
    let height = depth - memory;
    subtree_blocks(height, memory, leaf >> height) - 2
}

// Those of a run of an edition and of the openings of its challenges.
pub fn seal_blocks(
    edition: u64,
    statement: [u8; 32],
    root: [u8; 32],
    depth: u64,
    memory: u64,
    count: u64,
) -> u64
    requires { IsDepth depth × IsMemory depth memory × (count ≤ max_challenges) }
    ensures value { result ≡ seal_blocks edition statement root depth memory count }
    ensures upper_bound { result < 2 ^ 54 }
{
    let mut blocks = tree_blocks(depth);
    for i in 0..count {
        let leaf = challenge_leaf(edition, depth, statement, root, i + 1);
        blocks += opening_blocks(depth, memory, leaf);
    }
    blocks
}
