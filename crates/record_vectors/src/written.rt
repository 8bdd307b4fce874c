// Records written over bytes that held something else, and what reading them gives: every state of small runs, states of depth 40 by
// hand, and the edges of each refusal. A line has the run's numbers, the output's length, the answer, the size and the output's digest.
ghost use Rattle.std.specs.Prelude.{◌≡◌, ◌≤◌, take, replicate, IfOk};
ghost use Rattle.base.specs.Number.{outcome_number};
ghost use Rattle.run.specs.Steps.{run_of};
ghost use Rattle.run_record.specs.Reading.{resume_row, resumed};

use base::{HELD_SIZE, MAX_RECORD, Refusal, outcome_number};
use run::{Run, new_run};
use run_record::{read_record, write_record};
use std::io;
use std::io::Stdout;
use vector_helpers::{Hex, hash};

// Something else in every place.
fn places() -> [u8; HELD_SIZE] {
    let mut held = [0u8; HELD_SIZE];
    for (i, byte) in held.iter_mut().enumerate() {
        *byte = (i % 251) as u8;
    }
    held
}

// A run made by hand, with something in the places that hold no label too.
pub fn state(edition: u64, depth: u64, memory: u64, made: u64) -> Run
    ensures { result ≡ run_of edition (replicate 32 201) depth memory made result.held }
{
    let held = places();
    Run {
        statement: [201u8; 32],
        edition,
        depth,
        memory,
        made,
        held,
    }
}

// Writes the record. Its size; 0 where it is refused.
fn wrote(to: Stdout, run: Run, out: &mut [u8]) -> io::Result<usize> {
    print!(to; "{} {} {} {}", run.edition, run.depth, run.memory, run.made)?;
    let answer = write_record(run, out);
    let size = answer.unwrap_or(0);
    print!(to; " {} {} {size}", out.len(), outcome_number(answer))?;
    print!(to; " {}", Hex(&hash(out)))?;
    Ok(size)
}

// What reading so many of the bytes gives, or all where there are fewer.
pub fn read_front(bytes: &[u8], size: usize) -> Result<Run, Refusal>
    ensures outcome_value { outcome_number result ≡ resume_row (take size bytes.now) }
    ensures run_value { IfOk result (λ run. run ≡ resumed (take size bytes.now)) }
{
    read_record(&bytes[..size.min(bytes.len())])
}

// The numbers of a run that was read, and the digests of its statement and of its places; those of a run of zeros where none was.
fn read_back(to: Stdout, bytes: &[u8], size: usize) -> io::Result<()> {
    let answer = read_front(bytes, size);
    let run = answer.unwrap_or(new_run(0, [0u8; 32], 0, 0));
    print!(to; " {} {} {}", outcome_number(answer), run.edition, run.depth)?;
    print!(to; " {} {}", run.memory, run.made)?;
    print!(to; " {} {}", Hex(&hash(&run.statement)), Hex(&hash(&run.held)))
}

// A run's record, and the run that it gives.
fn line(to: Stdout, run: Run) -> io::Result<()> {
    let mut out = [90u8; MAX_RECORD];
    let size = wrote(to, run, &mut out)?;
    read_back(to, &out, size)?;
    println!(to; "")
}

// Each of so many states of a run from its start.
fn states(to: Stdout, edition: u64, depth: u64, memory: u64, count: u64) -> io::Result<()> {
    let mut store = [0u8; 224];
    let mut run = new_run(edition, hash(b"hull"), depth, memory);
    for _ in 0..count {
        line(to, run)?;
        let _ = run.advance(1, &mut store);
    }
    Ok(())
}

// Before the first label, after it, with all 41 places held, before the root and finished.
fn deep(to: Stdout, edition: u64) -> io::Result<()> {
    for made in [0, 1, 2199023255511, 2199023255550, 2199023255551] {
        line(to, state(edition, 40, 14, made))?;
    }
    Ok(())
}

// A run made by hand, over no room, one byte less than its record takes, just enough, and more.
fn lengths(to: Stdout, run: Run, size: usize) -> io::Result<()> {
    for len in [0, size.saturating_sub(1), size, MAX_RECORD] {
        let mut out = [90u8; MAX_RECORD];
        if let Some(room) = out.get_mut(..len) {
            wrote(to, run, room)?;
            println!(to; "")?;
        }
    }
    Ok(())
}

// 4 comes before 7.
fn edges(to: Stdout, edition: u64) -> io::Result<()> {
    for (depth, memory, made, size) in [
        (0, 0, 0, 36),
        (41, 0, 0, 36),
        (u64::MAX, 0, 0, 36),
        (3, 3, 0, 36),
        (3, 4, 0, 36),
        (13, 14, 0, 36),
        (14, 14, 0, 36),
        (40, 15, 0, 36),
        (40, 20, 0, 36),
        (3, 1, 14, 100),
        (3, 1, 15, 68),
        (3, 1, 16, 68),
        (3, 1, u64::MAX, 68),
        (40, 14, 2199023255511, 1353),
        (40, 14, 2199023255551, 73),
        (40, 14, 2199023255552, 73),
    ] {
        lengths(to, state(edition, depth, memory, made), size)?;
    }
    Ok(())
}

// Editions that do not exist: 4, before 7 as well.
pub fn no_edition(to: Stdout) -> io::Result<()> {
    for (edition, size) in [
        (0, 100),
        (3, 100),
        (128, 101),
        (4294967298, 100),
        (u64::MAX, 100),
    ] {
        lengths(to, state(edition, 3, 1, 14), size)?;
    }
    Ok(())
}

pub fn written(to: Stdout, edition: u64) -> io::Result<()> {
    for (depth, memory, count) in [(1, 1, 4), (2, 2, 8), (3, 2, 16), (4, 2, 32)] {
        states(to, edition, depth, memory, count)?;
    }
    deep(to, edition)?;
    edges(to, edition)
}
