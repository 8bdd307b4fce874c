// The table filled from the openings.
ghost use Rattle.std.specs.Prelude.{◌≡◌, ◌+◌, ◌≤◌, length};
ghost use Rattle.base.specs.Choice.{odd};
ghost use Rattle.base.specs.Bytes.{zeros, joined, written};
ghost use Rattle.base.specs.Limits.{max_depth};
ghost use Rattle.tree.specs.Openings.{child_labels, opening_size};
ghost use Rattle.labelling.specs.Rule.{stamp_rule};
ghost use Rattle.opening_check.specs.OpeningCheck.{given_by};
ghost use Rattle.compare.specs.Table.{Sized, RowOf, TableOf, row_size, table_size};

use crate::table::{ROW_SIZE, TABLE_SIZE};
use base::{label_at, put};
use labelling::{Node, Tree};
use opening_check::label_above;

// Room for 200 openings of depth 40. Alone, since a proof over so long a literal is slow.
pub fn empty_table() -> [u8; TABLE_SIZE]
    ensures { result ≡ zeros table_size }
{
    [0u8; TABLE_SIZE]
}

// Writes both child labels of the node above a child at this position, the left one first.
fn put_children(row: &mut [u8], at: usize, position: u64, child: [u8; 32], beside: &[u8])
    requires { (at + 64 ≤ length row.old) × (length beside.now ≡ 32) }
    ensures { row.new ≡ written row.old at (joined (child_labels (odd position) child beside.now)) }
{
    if position % 2 == 1 {
        put(row, at, beside);
        put(row, at + 32, &child);
    } else {
        put(row, at, &child);
        put(row, at + 32, beside);
    }
}

// Fills an opening's row, walking its way upward once. What lies behind the way's nodes stays.
fn fill_row(row: &mut [u8], tree: &Tree, leaf: u64, bytes: &[u8])
    requires { (tree.now.depth ≤ max_depth) × (length bytes.now ≡ opening_size tree.now.depth) × (length row.old ≡ row_size) }
    ensures { RowOf (stamp_rule tree.now.edition tree.now.depth tree.now.statement) tree.now.depth leaf (given_by bytes.now) tree.now.depth row.old row.new }
{
    let mut label = label_at(bytes, 0);
    for height in 0..tree.depth {
        let child = Node {
            level: tree.depth - height,
            position: leaf >> height,
        };
        let at = 32 * (height + 1) as usize;
        let beside = &bytes[at..at + 32];
        put_children(row, 64 * height as usize, child.position, label, beside);
        // The kit takes an array from a call only into a local of its own.
        let above = label_above(tree, child, label, beside);
        label = above;
    }
}

// Fills the rows of all openings. What lies behind them stays.
pub fn fill_table(table: &mut [u8], tree: &Tree, leaves: &[u64], openings: &[u8])
    requires { Sized tree.now.depth leaves.now openings.now × (length table.old ≡ table_size) }
    ensures { TableOf tree.now.edition tree.now.statement tree.now.depth leaves.now openings.now (length leaves.now) table.old table.new }
{
    let size = 32 * (tree.depth + 1) as usize;
    for (i, leaf) in leaves.iter().enumerate() {
        let at = ROW_SIZE * i;
        let from = i * size;
        fill_row(
            &mut table[at..at + ROW_SIZE],
            tree,
            *leaf,
            &openings[from..from + size],
        );
    }
}
