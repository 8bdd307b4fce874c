// Bytes read: every cut of three records and bytes more than they have, and numbers at the edges of each refusal, in their shortest form and
// in longer ones. Only the answers are printed.
ghost use Rattle.std.specs.Prelude.{◌≡◌, ◌+◌, length, IfOk};

use crate::written::{read_front, state};
use base::{MAX_RECORD, outcome_number};
use run_record::write_record;
use std::alloc::{AllocError, Global};
use std::io;
use std::io::Stdout;

// The answer to so many of the bytes.
fn answer(to: Stdout, bytes: &[u8], size: usize) -> io::Result<()> {
    print!(to; " {}", outcome_number(read_front(bytes, size)))
}

// A record cut after every byte, and with bytes behind it.
fn cuts(to: Stdout, edition: u64, depth: u64, memory: u64, made: u64) -> io::Result<()> {
    let mut out = [90u8; MAX_RECORD];
    let written = write_record(state(edition, depth, memory, made), &mut out);
    print!(to; "{}", written.unwrap_or(0))?;
    for size in 0..140 {
        answer(to, &out, size)?;
    }
    println!(to; "")
}

// Lays a number in so many groups more than one, whether it needs them or not.
fn lay(bytes: &mut Vec<u8>, value: u64, more: u64) -> Result<(), AllocError>
    ensures { IfOk result (λ done. length bytes.new.items ≡ length bytes.old.items + more + 1) }
{
    let mut rest = value;
    for _group in 0..more {
        bytes.push(128 + (rest % 128) as u8)?;
        rest /= 128;
    }
    bytes.push((rest % 128) as u8)?;
    Ok(())
}

// Edition, depth, memory level and labels made. The form has a digit for each: how many groups more than one it is laid in. The answers with 0, 31,
// 32, 33, 64 and 96 bytes behind the numbers.
fn numbers(to: Stdout, alloc: Global, form: u64, values: [u64; 4]) -> io::Result<()> {
    let [edition, depth, memory, made] = values;
    print!(to; "{form} {edition} {depth} {memory} {made}")?;
    let mut bytes = Vec::new(alloc);
    lay(&mut bytes, edition, form / 1000 % 10)?;
    lay(&mut bytes, depth, form / 100 % 10)?;
    lay(&mut bytes, memory, form / 10 % 10)?;
    lay(&mut bytes, made, form % 10)?;
    let end = bytes.len();
    bytes.extend_from_slice(&[90u8; 96])?;
    for behind in [0, 31, 32, 33, 64, 96] {
        answer(to, &bytes, end.saturating_add(behind))?;
    }
    println!(to; "")
}

// Each number in two, three and four groups.
fn forms(to: Stdout, alloc: Global, values: [u64; 4]) -> io::Result<()> {
    for more in [1, 2, 3] {
        for place in [1000, 100, 10, 1] {
            numbers(to, alloc, place * more, values)?;
        }
    }
    Ok(())
}

// Editions that exist or not, in their shortest form and in a longer one; one that does not exist is refused before all behind it.
pub fn editions(to: Stdout, alloc: Global) -> io::Result<()> {
    for (form, values) in [
        (0, [0, 40, 14, 0]),
        (0, [1, 40, 14, 0]),
        (0, [2, 40, 14, 0]),
        (0, [3, 40, 14, 0]),
        (0, [3, 41, 99, 99]),
        (0, [127, 40, 14, 0]),
        (1000, [1, 40, 14, 0]),
        (1000, [2, 40, 14, 0]),
        (1000, [128, 40, 14, 0]),
        (1000, [130, 40, 14, 0]),
        (1000, [200, 0, 99, 99]),
        (1003, [200, 0, 99, 0]),
    ] {
        numbers(to, alloc, form, values)?;
    }
    Ok(())
}

fn depths_and_levels(to: Stdout, alloc: Global, edition: u64) -> io::Result<()> {
    for (form, depth, memory) in [
        (0, 0, 0),
        (0, 41, 0),
        (0, 127, 0),
        (100, 128, 0),
        (1, 0, 0),
        (0, 40, 13),
        (0, 40, 14),
        (0, 40, 15),
        (0, 40, 20),
        (0, 40, 21),
        (0, 13, 14),
        (10, 40, 128),
    ] {
        numbers(to, alloc, form, [edition, depth, memory, 0])?;
    }
    Ok(())
}

// The labels made, at depths 3 and 40.
fn counts(to: Stdout, alloc: Global, edition: u64) -> io::Result<()> {
    for (form, made) in [(0, 1), (0, 2), (0, 14), (0, 15), (0, 16), (1, 128)] {
        numbers(to, alloc, form, [edition, 3, 1, made])?;
    }
    for (form, made) in [
        (1, 128),
        (4, 34359738367),
        (5, 34359738367),
        (5, 2199023255550),
        (5, 2199023255551),
        (5, 2199023255552),
        (5, 4398046511103),
        (6, 2199023255551),
        (6, 4398046511104),
        (9, 0),
    ] {
        numbers(to, alloc, form, [edition, 40, 14, made])?;
    }
    Ok(())
}

pub fn taken_up(to: Stdout, alloc: Global, edition: u64) -> io::Result<()> {
    cuts(to, edition, 1, 0, 0)?;
    cuts(to, edition, 3, 2, 9)?;
    cuts(to, edition, 40, 14, 2199023255551)?;
    forms(to, alloc, [edition, 3, 1, 15])?;
    forms(to, alloc, [edition, 41, 99, 99])?;
    depths_and_levels(to, alloc, edition)?;
    counts(to, alloc, edition)
}
