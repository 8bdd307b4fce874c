// Every leaf of small trees opened in both editions at every memory level and several budgets, and each refusal at its edge. The stored
// output has the digests of an independent model's openings, and its answers.
use base::{big_endian, outcome_number};
use labelling::Tree;
use opening::Opening;
use sha256::Hash;
use std::io;
use std::io::Stdout;
use vector_helpers::{
    EDITIONS, Hex, IsSame, LEVEL_EDGES, NO_WORK, Stamping, digest_of, hash, level_edge, open_to_end,
};

// The digest of every leaf's opening, made over output bytes that held something else, with a byte behind it, and of its number of labels.
fn all_leaves(of: Stamping, budget: u64, leaves: u64, store: &[u8]) -> [u8; 32] {
    let mut state = Hash::new();
    for leaf in 0..leaves {
        let mut out = [90u8; 1313];
        let mut labels = 0;
        if let Ok(mut opening) = Opening::start(of.tree(), of.memory, leaf, store, &mut out) {
            labels = open_to_end(&mut opening, 1000, budget, store, &mut out);
        }
        let _ = state.update(&out);
        let _ = state.update(&big_endian(labels));
    }
    digest_of(&state)
}

// One depth and memory level: the digest over every leaf with each budget.
fn level(to: Stdout, of: Stamping, leaves: u64) -> io::Result<()> {
    let store = of.finished();
    print!(to;
        "edition {} depth {} memory {}",
        of.edition, of.depth, of.memory
    )?;
    for budget in [1000, 3, 1] {
        print!(to; " {}", Hex(&all_leaves(of, budget, leaves, &store)))?;
    }
    println!(to; "")
}

// Starting or continuing with these numbers, over a store and an output of these lengths.
#[derive(Clone, Copy)]
struct Edge {
    edition: u64,
    depth: u64,
    memory: u64,
    leaf: u64,
    made: u64,
    store: usize,
    out: usize,
}

impl Edge {
    // What starting answers, and whether the output is changed.
    fn starts(self, to: Stdout, store: &[u8], out: &mut [u8]) -> io::Result<()> {
        let before = hash(out);
        let tree = Tree {
            statement: [7u8; 32],
            edition: self.edition,
            depth: self.depth,
        };
        let answer = Opening::start(tree, self.memory, self.leaf, store, out);
        print!(to;
            ": start {} {}",
            outcome_number(answer),
            IsSame(before == hash(out))
        )
    }

    // The same of continuing.
    fn continues(self, to: Stdout, store: &[u8], out: &mut [u8]) -> io::Result<()> {
        let before = hash(out);
        let mut opening = Opening {
            statement: [7u8; 32],
            edition: self.edition,
            depth: self.depth,
            memory: self.memory,
            leaf: self.leaf,
            made: self.made,
            held: [9u8; 1312],
        };
        let answer = opening.advance(1, store, out);
        let work = answer.unwrap_or(NO_WORK);
        print!(to;
            " continue {} labels {}",
            outcome_number(answer),
            work.labels
        )?;
        print!(to; " blocks {} {}", work.blocks, IsSame(before == hash(out)))
    }

    // Both.
    fn line(self, to: Stdout) -> io::Result<()> {
        print!(to;
            "{} {} {} {}",
            self.edition, self.depth, self.memory, self.leaf
        )?;
        print!(to; " {} {} {}", self.made, self.store, self.out)?;
        let space = space();
        let mut output = [2u8; 1313];
        if let (Some(store), Some(out)) = (space.get(..self.store), output.get_mut(..self.out)) {
            self.starts(to, store, out)?;
            out.fill(2);
            self.continues(to, store, out)?;
        }
        println!(to; "")
    }
}

// Room for every memory level.
fn space() -> [u8; 1048544] {
    [1u8; 1048544]
}

fn edges(to: Stdout) -> io::Result<()> {
    let edition = 2;
    for (depth, memory, leaf, made, store, out) in [
        (0, 0, 0, 0, 32, 64),
        (41, 0, 0, 0, 32, 1313),
        (40, 0, 1099511627775, 0, 32, 1312),
        (40, 0, 1099511627776, 0, 32, 1312),
        (40, 0, 0, 0, 32, 1311),
        (3, 3, 7, 0, 480, 128),
        (3, 4, 7, 0, 992, 128),
        (3, 3, 7, 1, 480, 128),
        (3, 1, 7, 0, 95, 128),
        (3, 1, 8, 0, 96, 128),
        (3, 1, 8, 0, 96, 127),
        (3, 1, 7, 0, 96, 127),
        (3, 1, 7, 5, 96, 128),
        (3, 1, 7, 6, 96, 128),
        (3, 1, 7, 7, 96, 128),
        (3, 1, 7, 7, 95, 127),
        (u64::MAX, u64::MAX, u64::MAX, u64::MAX, 0, 0),
    ] {
        let edge = Edge {
            edition,
            depth,
            memory,
            leaf,
            made,
            store,
            out,
        };
        edge.line(to)?;
    }
    Ok(())
}

// The edges of the memory level's limit.
fn level_edges(to: Stdout) -> io::Result<()> {
    for i in 0..LEVEL_EDGES {
        let at = level_edge(i);
        let edge = Edge {
            edition: 2,
            depth: at.depth,
            memory: at.memory,
            leaf: 0,
            made: 0,
            store: at.store,
            out: 1312,
        };
        edge.line(to)?;
    }
    Ok(())
}

// Each edition with other numbers that are right, and with all of them wrong.
fn editions(to: Stdout) -> io::Result<()> {
    for edition in EDITIONS {
        for (depth, memory, leaf, made, store, out) in [
            (3, 1, 7, 0, 96, 128),
            (3, 1, 7, 0, 95, 127),
            (41, 42, 8, 7, 0, 0),
        ] {
            let edge = Edge {
                edition,
                depth,
                memory,
                leaf,
                made,
                store,
                out,
            };
            edge.line(to)?;
        }
    }
    Ok(())
}

pub fn opening_edges(to: Stdout) -> io::Result<()> {
    edges(to)?;
    level_edges(to)?;
    editions(to)
}

pub fn openings(to: Stdout, edition: u64) -> io::Result<()> {
    let statement = hash(b"openings");
    for (depth, leaves) in [(1, 2), (2, 4), (3, 8), (4, 16), (5, 32), (6, 64)] {
        for memory in 0..=depth {
            level(
                to,
                Stamping {
                    edition,
                    statement,
                    depth,
                    memory,
                },
                leaves,
            )?;
        }
    }
    Ok(())
}
