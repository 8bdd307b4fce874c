// Planning: the row of checks, then the count, then the codes.
ghost use Rattle.std.specs.Prelude.{◌≡◌, true, ◌+◌, ◌≤◌, length, leb};
ghost use Rattle.std.specs.Result.{result_unwrap_or};
ghost use Rattle.base.specs.Choice.{pick, every};
ghost use Rattle.base.specs.Limits.{max_depth, max_challenges};
ghost use Rattle.chain_theory.specs.Counts.{leaves_opened};
ghost use Rattle.base.specs.Number.{outcome_number};
ghost use Rattle.chain_theory.specs.Planning.{is_leaf};
ghost use Rattle.chain.specs.PlanRow.{plan_row, planned_count, planned_list};
ghost use Rattle.chain.specs.Leaves.{leaves_row};

use crate::climbing::{count_plan, width, write_plan};
use crate::sorting::sort_leaves;
use base::{MAX_DEPTH, MAX_LEAVES, Refusal, beyond};

// Whether each is a position on the leaves' level.

fn are_leaves(depth: u64, leaves: &[u64]) -> bool
    requires { depth ≤ max_depth }
    ensures { result ≡ every (is_leaf depth) leaves.now }
{
    let end = width(depth);
    leaves.iter().all(|leaf| *leaf < end)
}

// The checks of depth and leaves, of which there are to be `least` to 200.
#[tactic(auto, unfolding(crate::specs::Leaves::leaves_row))]
pub fn check_leaves(least: usize, depth: u64, leaves: &[u64]) -> Result<(), Refusal>
    ensures { outcome_number result ≡ leaves_row least depth leaves.now }
{
    if beyond(MAX_DEPTH, depth) {
        return Err(Refusal::Depth);
    }
    if leaves.len() < least || MAX_LEAVES < leaves.len() {
        return Err(Refusal::Count);
    }
    if !are_leaves(depth, leaves) {
        return Err(Refusal::LeafPosition);
    }
    Ok(())
}

// Plans the chain of leaves in any order, with repeats: its codes from the list's first place on, and their count. With no leaf it is
// empty (W-203). All are counted before anything is written; a list that is refused stays as it was.
pub fn plan(depth: u64, leaves: &[u64], list: &mut [u64]) -> Result<u64, Refusal>
    ensures outcome_value { outcome_number result ≡ plan_row depth leaves.now (length list.old) }
    ensures count_value { result_unwrap_or result 0 ≡ planned_count depth leaves.now (length list.old) }
    ensures list_after { list.new ≡ planned_list depth leaves.now list.old }
{
    check_leaves(0, depth, leaves)?;
    let mut room = [0u64; MAX_LEAVES];
    let found = sort_leaves(leaves, &mut room);
    let count = count_plan(depth, found);
    if list.len() < count {
        return Err(Refusal::ShortList);
    }
    write_plan(depth, found, list);
    Ok(count as u64)
}

// How many of at most 200 leaves are different; 0 for more leaves.
pub fn different_leaves(leaves: &[u64]) -> u64
    ensures { result ≡ pick (leb (length leaves.now) max_challenges) (leaves_opened leaves.now) 0 }
{
    if MAX_LEAVES < leaves.len() {
        return 0;
    }
    let mut room = [0u64; MAX_LEAVES];
    let found = sort_leaves(leaves, &mut room);
    found.len() as u64
}
