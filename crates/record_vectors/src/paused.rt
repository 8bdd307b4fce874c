// Runs of the empty report, written out and taken up again after every label: edition, depth, memory level, labels made, the root and the store's
// digest, which are those of a run never paused. At a depth's first memory level they are the shared vectors'.
use crate::written::read_front;
use base::{MAX_RECORD, Refusal, label_at};
use run::{Run, new_run};
use run_record::write_record;
use std::io;
use std::io::Stdout;
use vector_helpers::{Hex, hash};

// The run written out and taken up again.
fn pause(run: Run) -> Result<Run, Refusal> {
    let mut out = [90u8; MAX_RECORD];
    let size = write_record(run, &mut out)?;
    read_front(&out, size)
}

// So many labels with a pause before each, and one at the end.
fn by_pauses(run: Run, labels: u64, store: &mut [u8]) -> Result<Run, Refusal> {
    let mut run = run;
    for _ in 0..labels {
        run = pause(run)?;
        run.advance(1, store)?;
    }
    pause(run)
}

fn end_line(to: Stdout, run: &Run, store: &[u8]) -> io::Result<()> {
    let root = label_at(&run.held, 0);
    print!(to; "{} {} {} {}", run.edition, run.depth, run.memory, run.made)?;
    println!(to; " {} {}", Hex(&root), Hex(&hash(store)))
}

// Room for memory level 8.
fn space() -> [u8; 16352] {
    [0u8; 16352]
}

// So many labels over a store of this length.
fn level(
    to: Stdout,
    edition: u64,
    depth: u64,
    memory: u64,
    labels: u64,
    size: usize,
) -> io::Result<()> {
    let mut space = space();
    let Some(store) = space.get_mut(..size) else {
        return Ok(());
    };
    match by_pauses(new_run(edition, hash(b""), depth, memory), labels, store) {
        Ok(run) => end_line(to, &run, store),
        Err(_) => Ok(()),
    }
}

pub fn paused(to: Stdout, edition: u64) -> io::Result<()> {
    for (depth, memory, labels, size) in [
        (1, 0, 3, 32),
        (1, 1, 3, 96),
        (2, 1, 7, 96),
        (2, 2, 7, 224),
        (3, 3, 15, 480),
        (3, 0, 15, 32),
        (4, 3, 31, 480),
        (4, 4, 31, 992),
        (5, 1, 63, 96),
        (5, 5, 63, 2016),
        (6, 3, 127, 480),
        (6, 6, 127, 4064),
        (7, 6, 255, 4064),
        (7, 7, 255, 8160),
        (8, 0, 511, 32),
        (8, 8, 511, 16352),
    ] {
        level(to, edition, depth, memory, labels, size)?;
    }
    Ok(())
}
