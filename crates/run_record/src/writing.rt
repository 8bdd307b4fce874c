// W-201: the record of a run written.
ghost use Rattle.std.specs.Prelude.{◌≡◌, ◌++◌, ◌+◌, ◌≤◌, length};
ghost use Rattle.std.specs.Result.{result_unwrap_or};
ghost use Rattle.base.specs.Bytes.{written};
ghost use Rattle.base.specs.Limits.{max_edition, max_depth, max_memory};
ghost use Rattle.base.specs.Number.{outcome_number};
ghost use Rattle.tree.specs.Held.{held};
ghost use Rattle.tree.specs.Walk.{nodes_in};
ghost use Rattle.run_record.specs.Layout.{numbers_space, held_length, record_numbers, record_row, record_size, record_written};

use crate::NUMBERS_SPACE;
use base::{Refusal, put};
use labelling::Node;
use run::{Run, nodes, not_possible};

// How many labels are held, from the next node: those of the left siblings on its way and, of an inner node, its two children's. A
// finished run holds the root's.
fn held_count(depth: u64, made: u64) -> usize
    requires { (depth ≤ max_depth) × (made ≤ nodes_in depth) }
    ensures { result ≡ length (held depth made) }
{
    if made == nodes(depth) {
        return 1;
    }
    let root = Node {
        level: 0,
        position: 0,
    };
    let next = root.next_below(depth, made);
    let beside = u64::count_ones(next.position) as usize;
    if next.level < depth {
        beside + 2
    } else {
        beside
    }
}

// The bytes of the held labels.
pub fn held_length(depth: u64, made: u64) -> usize
    requires { (depth ≤ max_depth) × (made ≤ nodes_in depth) }
    ensures { result ≡ held_length depth made }
{
    32 * held_count(depth, made)
}

// The four numbers in their groups, in lent room: there is no heap.
fn lay_numbers<'a>(run: &Run, room: &'a mut [u8]) -> &'a [u8]
    requires { (run.now.edition ≤ max_edition) × (run.now.depth ≤ max_depth) × (run.now.memory ≤ max_memory)
        × (run.now.made ≤ nodes_in run.now.depth) × (length room.old ≡ numbers_space) }
    ensures { result.now ≡ record_numbers run.now.edition run.now.depth run.now.memory run.now.made }
{
    let first = groups::put_number(run.edition, room, 0);
    let second = groups::put_number(run.depth, room, first);
    let third = groups::put_number(run.memory, room, second);
    let count = groups::put_number(run.made, room, third);
    &room[..count]
}

// Writes numbers, statement and held labels over the front of `out`. Its callers know that they fit.
fn put_parts(numbers: &[u8], statement: [u8; 32], labels: &[u8], out: &mut [u8])
    requires { length numbers.now + 32 + length labels.now ≤ length out.old }
    ensures { out.new ≡ written out.old 0 (numbers.now ++ statement ++ labels.now) }
{
    let at = numbers.len();
    put(out, 0, numbers);
    put(out, at, &statement);
    put(out, at + 32, labels);
}

// Writes the record over the front of `out`, or nothing where it does not fit. How many bytes were written.
pub fn write_record(run: Run, out: &mut [u8]) -> Result<usize, Refusal>
    ensures outcome_value { outcome_number result ≡ record_row run (length out.old) }
    ensures size_value { result_unwrap_or result 0 ≡ record_size run (length out.old) }
    ensures out_after { out.new ≡ record_written run out.old }
{
    if not_possible(run.edition, run.depth, run.memory, run.made) {
        return Err(Refusal::State);
    }
    let mut room = [0u8; NUMBERS_SPACE];
    let numbers = lay_numbers(&run, &mut room);
    let labels = held_length(run.depth, run.made);
    let size = numbers.len() + 32 + labels;
    if out.len() < size {
        return Err(Refusal::ShortOutput);
    }
    put_parts(numbers, run.statement, &run.held[..labels], out);
    Ok(size)
}
