// Runs of both editions to their end at several budgets and memory levels. The stored output has the roots and store digests of the
// shared vectors, and of an independent model.
use base::NEW_EDITION;
use run::Run;
use std::io;
use std::io::Stdout;
use vector_helpers::{Hex, Stamping, hash, run_to_end};

// Room for memory level 14 and a byte more, which no run may touch.
fn dirty_store() -> [u8; 1048545] {
    [90u8; 1048545]
}

// A new run: of edition 2 as a start gives it; of edition 1, which no call starts, by its fields.
fn begun(of: Stamping, store: &[u8]) -> Run {
    if of.edition == NEW_EDITION {
        Run::start(of.statement, of.depth, of.memory, store).unwrap_or(of.run())
    } else {
        of.run()
    }
}

// The root, the digest of the held labels, of the store, and the byte behind the store.
fn line(to: Stdout, run: &Run, store: &[u8], behind: u8) -> io::Result<()> {
    let root = base::label_at(&run.held, 0);
    print!(to;
        " made {} root {} held {}",
        run.made,
        Hex(&root),
        Hex(&hash(&run.held))
    )?;
    println!(to; " store {} behind {behind}", Hex(&hash(store)))
}

// A run to its end, whose store is so long.
fn to_end(to: Stdout, of: Stamping, budget: u64, size: usize) -> io::Result<()> {
    let mut space = dirty_store();
    let mut run = begun(of, &space);
    run_to_end(&mut run, 131071, budget, &mut space);
    print!(to; "budget {budget}")?;
    match space.get(size) {
        Some(behind) => line(to, &run, &space[..size], *behind),
        None => Ok(()),
    }
}

// The store's size at each memory level that there is room for.
fn store_size(memory: u64) -> usize {
    match memory {
        0 => 32,
        1 => 96,
        2 => 224,
        3 => 480,
        4 => 992,
        5 => 2016,
        6 => 4064,
        7 => 8160,
        8 => 16352,
        9 => 32736,
        10 => 65504,
        11 => 131040,
        12 => 262112,
        13 => 524256,
        14 => 1048544,
        _ => 0,
    }
}

// A report at a depth: at the vector's own memory level, at the smallest and at the largest that there is room for.
fn three_levels(to: Stdout, edition: u64, report: &[u8], depth: u64, own: u64) -> io::Result<()> {
    let statement = hash(report);
    for memory in [own, 0, depth.min(14)] {
        println!(to; "edition {edition} depth {depth} memory {memory}")?;
        for budget in [1000000, 1000, 1] {
            let of = Stamping {
                edition,
                statement,
                depth,
                memory,
            };
            to_end(to, of, budget, store_size(memory))?;
        }
    }
    Ok(())
}

// The report is `hull` and the depth, at most 19.
fn hull(to: Stdout, edition: u64, depth: u64, memory: u64) -> io::Result<()> {
    let last = b'0' + (depth % 10) as u8;
    if depth < 10 {
        three_levels(
            to,
            edition,
            &[b'h', b'u', b'l', b'l', b' ', last],
            depth,
            memory,
        )
    } else {
        three_levels(
            to,
            edition,
            &[b'h', b'u', b'l', b'l', b' ', b'1', last],
            depth,
            memory,
        )
    }
}

// Two reports at each depth, each at its memory level: the empty one, and `hull` and the depth.
fn edition_runs(to: Stdout, edition: u64, levels: &[(u64, u64, u64)]) -> io::Result<()> {
    for (depth, empty, named) in levels {
        three_levels(to, edition, b"", *depth, *empty)?;
        hull(to, edition, *depth, *named)?;
    }
    Ok(())
}

pub fn runs(to: Stdout) -> io::Result<()> {
    edition_runs(
        to,
        1,
        &[
            (1, 0, 0),
            (2, 1, 0),
            (3, 3, 3),
            (4, 3, 3),
            (5, 1, 0),
            (6, 3, 0),
            (7, 6, 6),
            (8, 0, 7),
            (9, 4, 3),
            (10, 9, 1),
            (11, 5, 0),
            (12, 0, 0),
            (13, 10, 8),
            (14, 0, 14),
            (15, 12, 6),
            (16, 13, 0),
        ],
    )?;
    edition_runs(
        to,
        2,
        &[
            (1, 1, 1),
            (2, 2, 0),
            (3, 0, 3),
            (4, 2, 3),
            (5, 3, 5),
            (6, 1, 0),
            (7, 7, 5),
            (8, 7, 8),
            (9, 5, 5),
            (10, 5, 8),
            (11, 1, 3),
            (12, 0, 5),
            (13, 10, 8),
            (14, 2, 11),
        ],
    )
}
