// The comparison of openings made by hand, in both editions: a tree's own, and with bytes changed. A changed byte changes the computed
// labels above it, so each clash reaches the root, which is the smallest level.
use base::outcome_number;
use compare::{Clash, compare};
use labelling::Tree;
use opening::Opening;
use std::io;
use std::io::Stdout;
use vector_helpers::{EDITIONS, Hex, Stamping, hash};

fn statement() -> [u8; 32] {
    hash(b"compared")
}

// The pair's numbers and level, and the digests of both inputs.
pub fn clash_words(to: Stdout, clash: &Clash) -> io::Result<()> {
    let pair = clash.pair;
    print!(to; " clash {} {} {}", pair.first, pair.second, pair.level)?;
    print!(to;
        " {} {}",
        Hex(&hash(&clash.first)),
        Hex(&hash(&clash.second))
    )
}

// The digests in their place where there is no clash: those of zeros.
pub fn no_inputs(to: Stdout) -> io::Result<()> {
    let none = hash(&[0u8; 105]);
    print!(to; " {} {}", Hex(&none), Hex(&none))
}

// The outcome, and what was found.
fn answer(to: Stdout, edition: u64, depth: u64, leaves: &[u64], openings: &[u8]) -> io::Result<()> {
    let tree = Tree {
        statement: statement(),
        edition,
        depth,
    };
    let found = compare(&tree, leaves, openings);
    print!(to; " {}", outcome_number(found))?;
    match found.unwrap_or(None) {
        Some(clash) => clash_words(to, &clash)?,
        None => {
            print!(to; " agree")?;
            no_inputs(to)?;
        }
    }
    println!(to; "")
}

// The openings of leaves of the tree of depth 3, whose store is whole, end to end.
fn opened(edition: u64, leaves: &[u64]) -> [u8; 1024] {
    let statement = statement();
    let of = Stamping {
        edition,
        statement,
        depth: 3,
        memory: 3,
    };
    let store = of.finished();
    let mut openings = [0u8; 1024];
    for (opening, leaf) in openings.chunks_exact_mut(128).zip(leaves) {
        let _ = Opening::start(of.tree(), 3, *leaf, &store, opening);
    }
    openings
}

// The openings of leaves, with the lowest bit of some of their bytes changed.
fn changed(
    to: Stdout,
    edition: u64,
    name: &str,
    leaves: &[u64],
    places: &[usize],
) -> io::Result<()> {
    let mut openings = opened(edition, leaves);
    for place in places {
        if let Some(byte) = openings.get_mut(*place) {
            *byte ^= 1;
        }
    }
    print!(to; "{name}")?;
    answer(
        to,
        edition,
        3,
        leaves,
        &openings[..128 * leaves.len().min(8)],
    )
}

// Openings that agree.
fn agreeing(to: Stdout, edition: u64) -> io::Result<()> {
    changed(to, edition, "one opening", &[5], &[])?;
    changed(to, edition, "one opening, changed", &[5], &[40, 100])?;
    changed(to, edition, "two leaves", &[0, 4], &[])?;
    changed(to, edition, "a leaf repeated", &[5, 5, 5], &[])?;
    changed(to, edition, "all leaves", &[7, 2, 1, 0, 6, 3, 4, 5], &[])
}

// Two leaves that share the root alone, the level below, and all but the leaves.
fn clashing(to: Stdout, edition: u64) -> io::Result<()> {
    changed(to, edition, "at the root", &[0, 4], &[230])?;
    changed(to, edition, "in the middle", &[0, 2], &[200])?;
    changed(to, edition, "above the leaf", &[0, 1], &[165])?;
    changed(to, edition, "a leaf's label", &[0, 1], &[128])?;
    changed(to, edition, "in the first", &[6, 3], &[0])?;
    changed(to, edition, "in both", &[6, 3], &[10, 150])?;
    changed(to, edition, "in both alike", &[6, 6], &[10, 138])
}

// Several pairs: four leaves, of which neighbours stand side by side, and every leaf, in no order.
fn several(to: Stdout, edition: u64) -> io::Result<()> {
    let four = [0, 1, 4, 5];
    changed(to, edition, "the third", &four, &[300])?;
    changed(to, edition, "the fourth", &four, &[511])?;
    changed(to, edition, "second and fourth", &four, &[140, 400])?;
    let all = [7, 2, 1, 0, 6, 3, 4, 5];
    changed(to, edition, "the first of all", &all, &[5])?;
    changed(to, edition, "the last of all", &all, &[1023])?;
    changed(to, edition, "the last two", &all, &[1023, 780])
}

// A leaf repeated with another opening, changed at a byte.
fn repeated(to: Stdout, edition: u64) -> io::Result<()> {
    changed(to, edition, "repeated, root", &[5, 5], &[255])?;
    changed(to, edition, "repeated, middle", &[5, 5], &[223])?;
    changed(to, edition, "repeated, above the leaf", &[5, 5], &[160])?;
    changed(to, edition, "repeated, leaf", &[5, 5], &[128])?;
    changed(to, edition, "repeated, apart", &[5, 2, 7, 5], &[420])
}

// The checks of the comparison: these numbers, the first leaf and so many bytes, of openings of edition 2.
fn edge(
    to: Stdout,
    edition: u64,
    depth: u64,
    count: usize,
    leaf: u64,
    size: usize,
) -> io::Result<()> {
    print!(to; "edge {edition} {depth} {count} {leaf} {size}")?;
    let leaves = [leaf, 1, 2, 3, 4, 5, 6, 7];
    let openings = opened(2, &[0, 1, 2, 3, 4, 5, 6, 7]);
    match (leaves.get(..count), openings.get(..size)) {
        (Some(leaves), Some(openings)) => answer(to, edition, depth, leaves, openings),
        _ => Ok(()),
    }
}

// In edition 2 at the edges of each refusal; then each edition with other numbers that are right, and with all of them wrong.
fn refusals(to: Stdout) -> io::Result<()> {
    for (depth, count, leaf, size) in [
        (3, 8, 0, 1024),
        (3, 8, 0, 1023),
        (3, 7, 0, 1024),
        (3, 8, 8, 1023),
        (3, 0, 8, 0),
        (3, 0, 8, 1024),
        (0, 0, 8, 1024),
        (41, 1, 0, 1024),
        (2, 3, 3, 288),
        (2, 4, 3, 384),
        (2, 5, 3, 480),
        (1, 2, 0, 128),
        (u64::MAX, 8, u64::MAX, 1024),
        (40, 1, 1099511627775, 1024),
        (40, 1, 1099511627776, 1024),
    ] {
        edge(to, 2, depth, count, leaf, size)?;
    }
    for edition in EDITIONS {
        edge(to, edition, 3, 8, 0, 1024)?;
        edge(to, edition, 41, 0, 8, 1)?;
    }
    Ok(())
}

// 201 leaves are refused before their positions and the bytes are looked at; 200 are not.
fn many(to: Stdout) -> io::Result<()> {
    let leaves = [0u64; 201];
    print!(to; "201 leaves")?;
    answer(to, 2, 3, &leaves, b"")?;
    print!(to; "200 leaves")?;
    answer(to, 2, 3, &leaves[1..], b"")
}

// Openings that are no tree's, at the greatest depth: byte i is 31 i + 7.
fn deep(to: Stdout, edition: u64, leaves: [u64; 2]) -> io::Result<()> {
    let mut openings = [0u8; 2624];
    let mut next = 7u8;
    for byte in &mut openings {
        *byte = next;
        next = next.wrapping_add(31);
    }
    print!(to; "deep")?;
    answer(to, edition, 40, &leaves, &openings)
}

pub fn edges(to: Stdout) -> io::Result<()> {
    refusals(to)?;
    many(to)
}

pub fn compared(to: Stdout, edition: u64) -> io::Result<()> {
    println!(to; "edition {edition}")?;
    agreeing(to, edition)?;
    clashing(to, edition)?;
    several(to, edition)?;
    repeated(to, edition)?;
    deep(to, edition, [0, 1099511627775])?;
    deep(to, edition, [733007751850, 733007751851])?;
    deep(to, edition, [733007751850, 733007751850])
}
