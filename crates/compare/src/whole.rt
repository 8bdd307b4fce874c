// The comparison: the checks, then the table, then the first pair.
ghost use Rattle.std.specs.Prelude.{◌≡◌, length, IfOk};
ghost use Rattle.base.specs.Number.{outcome_number};
ghost use Rattle.compare.specs.Comparison.{compare_row, compared, clash_of};

use crate::Clash;
use crate::filling::{empty_table, fill_table};
use crate::table::Table;
use base::{MAX_EDITION, Refusal, beyond};
use chain::check_leaves;
use labelling::Tree;

// The checks: the edition; then those of planning, but at least one leaf; then the size.
fn check(edition: u64, depth: u64, leaves: &[u64], size: usize) -> Result<(), Refusal>
    ensures { outcome_number result ≡ compare_row edition depth leaves.now size }
{
    if beyond(MAX_EDITION, edition) {
        return Err(Refusal::Edition);
    }
    check_leaves(1, depth, leaves)?;
    let all = leaves.len() * (32 * (depth + 1) as usize);
    if size < all {
        return Err(Refusal::BytesEnd);
    }
    if all < size {
        return Err(Refusal::BytesLeft);
    }
    Ok(())
}

// Compares openings, given one after the other, with their leaves. They need not be right.
pub fn compare(tree: &Tree, leaves: &[u64], openings: &[u8]) -> Result<Option<Clash>, Refusal>
    ensures outcome_value { outcome_number result ≡ compare_row tree.now.edition tree.now.depth leaves.now (length openings.now) }
    ensures clash_value { IfOk result (λ found. found
        ≡ clash_of tree.now.edition tree.now.statement tree.now.depth leaves.now openings.now
        (compared tree.now.edition tree.now.statement tree.now.depth leaves.now openings.now)) }
{
    check(tree.edition, tree.depth, leaves, openings.len())?;
    let mut cells = empty_table();
    fill_table(&mut cells, tree, leaves, openings);
    let table = Table {
        depth: tree.depth,
        leaves,
        cells: &cells,
    };
    let Some(pair) = table.first_pair() else {
        return Ok(None);
    };
    Ok(Some(Clash {
        pair,
        first: table.input(tree, pair.first, pair.level),
        second: table.input(tree, pair.second, pair.level),
    }))
}
