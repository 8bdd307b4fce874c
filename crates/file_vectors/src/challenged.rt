// The openings of the shared files' challenges, made at every memory level.
use base::label_at;
use file_head::challenge;
use opening::Opening;
use sha256::Hash;
use std::io;
use std::io::Stdout;
use vector_helpers::{Hex, Stamping, decimal, decode, digest_of, field, hash, open_to_end};

// The digest of the openings of so many challenges, in their order.
fn all(of: Stamping, root: [u8; 32], budget: u64, count: u64, store: &[u8]) -> [u8; 32] {
    let mut state = Hash::new();
    let size = 32 * (of.depth % 41 + 1) as usize;
    for i in 1..=count {
        let mut out = [90u8; 1313];
        let leaf = challenge(of.edition, of.depth, of.statement, root, i).unwrap_or(0);
        if let Ok(mut opening) = Opening::start(of.tree(), of.memory, leaf, store, &mut out) {
            open_to_end(&mut opening, 1000, budget, store, &mut out);
        }
        let _ = state.update(&out[..size]);
    }
    digest_of(&state)
}

fn level(to: Stdout, of: Stamping, count: u64) -> io::Result<()> {
    let store = of.finished();
    let root = label_at(&store, 0);
    print!(to;
        "file edition {} depth {} count {count}",
        of.edition, of.depth
    )?;
    print!(to; " memory {}", of.memory)?;
    for budget in [1000, 7, 1] {
        print!(to; " {}", Hex(&all(of, root, budget, count, &store)))?;
    }
    println!(to; "")
}

// A line of the shared files.
pub fn challenged(to: Stdout, edition: u64, line: &[u8]) -> io::Result<()> {
    let mut report = [0u8; 64];
    let length = decode(field(line, 0), &mut report);
    let statement = hash(&report[..length]);
    let depth = decimal(field(line, 1));
    let count = decimal(field(line, 2));
    for memory in 0..=depth {
        level(
            to,
            Stamping {
                edition,
                statement,
                depth,
                memory,
            },
            count,
        )?;
    }
    Ok(())
}
