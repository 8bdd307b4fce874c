// The shared files written again from their reports, at several memory levels and budgets, and checked; and their openings read as
// parts.
ghost use Rattle.std.specs.Prelude.{◌≤◌, length};

use crate::parts::every_part;
use base::{label_at, outcome_number};
use proof_file::check_file_code;
use std::io;
use std::io::Stdout;
use vector_helpers::{Hex, NO_WORK, Stamping, decimal, decode, field, hash};
use writing::Writing;

// Calls with one budget until no label is left, at most 1,000 calls; prints how many made labels, how many they made, and their blocks.
fn write_on(
    to: Stdout,
    writing: &mut Writing,
    budget: u64,
    store: &[u8],
    file: &mut [u8],
) -> io::Result<()> {
    let mut all = NO_WORK;
    for calls in 0..1000 {
        let work = writing.advance(budget, store, file).unwrap_or(NO_WORK);
        if work.labels == 0 {
            return print!(to; " {calls} {} {}", all.labels, all.blocks);
        }
        all.labels = all.labels.wrapping_add(work.labels % 1000000) % 1000000000;
        all.blocks = all.blocks.wrapping_add(work.blocks % 1000000) % 1000000000;
    }
    Ok(())
}

// Writes a file over bytes that held something else, from a store; the digest of all bytes, and the check's answer.
fn write(
    to: Stdout,
    of: Stamping,
    count: u64,
    budget: u64,
    size: usize,
    store: &[u8],
) -> io::Result<()>
    requires { 32 ≤ length store.now }
{
    let mut file = [90u8; 1024];
    let root = label_at(store, 0);
    let start = Writing::start(of.tree(), root, of.memory, count, store, &mut file);
    print!(to; " start {}", outcome_number(start))?;
    match start {
        Ok(mut writing) => write_on(to, &mut writing, budget, store, &mut file)?,
        Err(_) => print!(to; " 0 0 0")?,
    }
    print!(to; " {}", Hex(&hash(&file)))?;
    let Some(whole) = file.get(..size) else {
        return Ok(());
    };
    print!(to;
        " {}",
        check_file_code(whole, of.statement, of.depth, count)
    )
}

fn level(to: Stdout, of: Stamping, count: u64, size: usize) -> io::Result<()> {
    let store = of.finished();
    print!(to; "file {} {} {count} {}", of.edition, of.depth, of.memory)?;
    for budget in [1, 7, u64::MAX] {
        write(to, of, count, budget, size, &store)?;
    }
    println!(to; "")
}

// At the smallest memory level, a middle one and the greatest.
pub fn written(to: Stdout, edition: u64, line: &[u8]) -> io::Result<()> {
    let mut report = [0u8; 64];
    let length = decode(field(line, 0), &mut report);
    let statement = hash(&report[..length]);
    let depth = decimal(field(line, 1));
    let count = decimal(field(line, 2));
    let mut file = [0u8; 1024];
    let size = decode(field(line, 3), &mut file);
    for memory in [0, depth / 2, depth] {
        level(
            to,
            Stamping {
                edition,
                statement,
                depth,
                memory,
            },
            count,
            size,
        )?;
    }
    every_part(to, &file[..size], count)
}
