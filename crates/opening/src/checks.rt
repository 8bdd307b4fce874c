// Document 01's rows 'Starting an opening' and 'Continuing an opening', for every number.
ghost use Rattle.std.specs.Prelude.{◌≡◌, ◌^◌, ◌≤◌, [], ◌∷◌, ltb, leb};
ghost use Rattle.base.specs.Limits.{max_depth};
ghost use Rattle.base.specs.Row.{first_of, either};
ghost use Rattle.base.specs.Number.{outcome_number};
ghost use Rattle.tree.specs.Openings.{opening_size};
ghost use Rattle.run.specs.Rows.{impossible};
ghost use Rattle.opening.specs.Rows.{nodes_anew, leaf_checks, open_row, reopen_row};

use crate::Opening;
use base::{MAX_EDITION, Refusal, beyond};
use run::{check_store, nodes, outside};

// The nodes that an opening labels anew: its subtree's but the topmost.
pub fn nodes_anew(depth: u64, memory: u64) -> u64
    requires { (depth ≤ max_depth) × (memory ≤ depth) }
    ensures { result ≡ nodes_anew depth memory }
{
    nodes(depth - memory) - 1
}

// Whether the tree has no such leaf.
fn leaf_outside(depth: u64, leaf: u64) -> bool
    requires { depth ≤ max_depth }
    ensures { result ≡ leb (2 ^ depth) leaf }
{
    (1u64 << depth) <= leaf
}

fn check_output(depth: u64, out: usize) -> Result<(), Refusal>
    requires { depth ≤ max_depth }
    ensures { outcome_number result ≡ first_of ((ltb out (opening_size depth), 7) ∷ []) }
{
    if (out as u64) < 32 * (depth + 1) {
        return Err(Refusal::ShortOutput);
    }
    Ok(())
}

// Whether no opening has these numbers.
pub fn not_possible(edition: u64, depth: u64, memory: u64, made: u64, leaf: u64) -> bool
    ensures { result ≡ either (impossible edition depth memory made (nodes_anew depth memory)) (leb (2 ^ depth) leaf) }
{
    outside(edition, depth, memory) || nodes_anew(depth, memory) < made || leaf_outside(depth, leaf)
}

fn leaf_fits(depth: u64, leaf: u64, out: usize) -> Result<(), Refusal>
    requires { depth ≤ max_depth }
    ensures { outcome_number result ≡ first_of (leaf_checks depth leaf out) }
{
    if leaf_outside(depth, leaf) {
        return Err(Refusal::LeafPosition);
    }
    check_output(depth, out)
}

pub fn may_start(
    edition: u64,
    depth: u64,
    memory: u64,
    leaf: u64,
    store: usize,
    out: usize,
) -> Result<(), Refusal>
    ensures { outcome_number result ≡ open_row edition depth memory leaf store out }
{
    if beyond(MAX_EDITION, edition) {
        return Err(Refusal::Edition);
    }
    run::may_start(depth, memory, store)?;
    leaf_fits(depth, leaf, out)
}

impl Opening {
    #[tactic(auto, unfolding(crate::specs::Rows::reopen_row))]
    pub(crate) fn may_continue(&self, store: usize, out: usize) -> Result<(), Refusal>
        ensures { outcome_number result ≡ reopen_row self.now store out }
    {
        if not_possible(self.edition, self.depth, self.memory, self.made, self.leaf) {
            return Err(Refusal::State);
        }
        check_store(self.memory, store)?;
        check_output(self.depth, out)
    }
}
