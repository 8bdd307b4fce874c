// Document 01's row 'Writing the file's head'.
ghost use Rattle.std.specs.Prelude.{◌≡◌, ◌<◌, ◌≤◌, length};
ghost use Rattle.base.specs.Limits.{max_depth, max_challenges};
ghost use Rattle.base.specs.Bytes.{written};
ghost use Rattle.base.specs.Number.{outcome_number};
ghost use Rattle.file_head.specs.Layout.{head_numbers, head, head_size, file_size, head_row, head_written};

use crate::challenges::check_numbers;
use base::{Refusal, put};

// The length of the whole file: edition and depth take a byte each, the count one or two.
pub fn file_size(n: u64, t: u64) -> usize
    requires { (n ≤ max_depth) × (t ≤ max_challenges) }
    ensures { result ≡ file_size n t }
{
    let numbers = if t < 128 { 3 } else { 4 };
    numbers + 64 + t as usize * (32 * (n + 1) as usize)
}

// Writes the three numbers over the front of `out`. Where they end.
fn put_numbers(edition: u64, n: u64, t: u64, out: &mut [u8]) -> usize
    requires { (edition < 128) × (n ≤ max_depth) × (t ≤ max_challenges) × (length (head_numbers edition n t) ≤ length out.old) }
    ensures value { result ≡ length (head_numbers edition n t) }
    ensures out_after { out.new ≡ written out.old 0 (head_numbers edition n t) }
{
    let first = groups::put_number(edition, out, 0);
    let second = groups::put_number(n, out, first);
    groups::put_number(t, out, second)
}

// Writes the head over the front of `out`. Its callers know that it fits.
fn put_head(edition: u64, statement: [u8; 32], root: [u8; 32], n: u64, t: u64, out: &mut [u8])
    requires { (edition < 128) × (n ≤ max_depth) × (t ≤ max_challenges) × (head_size n t ≤ length out.old) }
    ensures { out.new ≡ written out.old 0 (head edition statement root n t) }
{
    let at = put_numbers(edition, n, t, out);
    put(out, at, &statement);
    put(out, at + 32, &root);
}

// The row, for an output of so many bytes.
#[tactic(auto, unfolding(crate::specs::Layout::head_row, crate::specs::Challenge::challenge_row))]
pub fn may_write(edition: u64, depth: u64, count: u64, out: usize) -> Result<(), Refusal>
    ensures { outcome_number result ≡ head_row edition depth count out }
{
    check_numbers(edition, depth, count)?;
    if out < file_size(depth, count) {
        return Err(Refusal::ShortOutput);
    }
    Ok(())
}

// Writes the head of a file of t openings at depth n. Refused, it leaves `out` as it was.
#[tactic(auto, unfolding(crate::specs::Layout::head_row, crate::specs::Layout::head_written))]
pub fn write_head(
    edition: u64,
    statement: [u8; 32],
    root: [u8; 32],
    depth: u64,
    count: u64,
    out: &mut [u8],
) -> Result<(), Refusal>
    ensures result_value { outcome_number result ≡ head_row edition depth count (length out.old) }
    ensures out_after { out.new ≡ head_written edition statement root depth count out.old }
{
    may_write(edition, depth, count, out.len())?;
    put_head(edition, statement, root, depth, count, out);
    Ok(())
}
