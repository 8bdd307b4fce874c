// Starting and continuing a run at the edges of each refusal: the whole run and store before and after. The stored output has an
// independent model's answers.
use base::outcome_number;
use run::{Run, new_run};
use sha256::Hash;
use std::io;
use std::io::Stdout;
use vector_helpers::{
    EDITIONS, Hex, IsSame, LEVEL_EDGES, NO_WORK, digest_of, hash, hash_run, level_edge,
};

// Room for memory level 14.
fn dirty_store() -> [u8; 1048544] {
    [90u8; 1048544]
}

// What is printed where no run is started.
fn no_run() -> Run {
    new_run(0, [0u8; 32], 0, 0)
}

// The digest of a whole run.
fn run_digest(run: &Run) -> [u8; 32] {
    let mut state = Hash::new();
    hash_run(&mut state, run);
    digest_of(&state)
}

// Starting, which takes no edition, and continuing with these numbers and a store of this length.
#[derive(Clone, Copy)]
struct Edge {
    edition: u64,
    depth: u64,
    memory: u64,
    made: u64,
    store: usize,
}

impl Edge {
    // What starting answers, the run beside it, and whether the store is changed.
    fn starts(self, to: Stdout, store: &[u8]) -> io::Result<()> {
        let before = hash(store);
        let start = Run::start([7u8; 32], self.depth, self.memory, store);
        let run = start.unwrap_or(no_run());
        print!(to;
            ": start {} run {}",
            outcome_number(start),
            Hex(&run_digest(&run))
        )?;
        let after = hash(store);
        print!(to; " store {} {}", Hex(&after), IsSame(before == after))
    }

    // The same of continuing by one label, with whether the run is changed.
    fn continues(self, to: Stdout, store: &mut [u8]) -> io::Result<()> {
        let before = hash(store);
        let mut run = Run {
            statement: [7u8; 32],
            edition: self.edition,
            depth: self.depth,
            memory: self.memory,
            made: self.made,
            held: [9u8; 1312],
        };
        let before_run = run_digest(&run);
        let answer = run.advance(1, store);
        let work = answer.unwrap_or(NO_WORK);
        print!(to;
            " continue {} labels {}",
            outcome_number(answer),
            work.labels
        )?;
        let after_run = run_digest(&run);
        print!(to;
            " blocks {} run {} {}",
            work.blocks,
            Hex(&after_run),
            IsSame(before_run == after_run)
        )?;
        let after = hash(store);
        print!(to; " store {} {}", Hex(&after), IsSame(before == after))
    }

    // Both, if there is room for the store.
    fn line(self, to: Stdout) -> io::Result<()> {
        let mut space = dirty_store();
        let Some(store) = space.get_mut(..self.store) else {
            return Ok(());
        };
        print!(to;
            "edition {} n {} m {}",
            self.edition, self.depth, self.memory
        )?;
        print!(to; " made {} store {}", self.made, self.store)?;
        self.starts(to, store)?;
        self.continues(to, store)?;
        println!(to; "")
    }
}

fn edges(to: Stdout) -> io::Result<()> {
    let edition = 2;
    for (depth, memory, made, store) in [
        (0, 0, 0, 32),
        (1, 0, 0, 32),
        (40, 0, 0, 32),
        (41, 0, 0, 32),
        (u64::MAX, 0, 0, 32),
        (3, 3, 0, 480),
        (3, 4, 0, 992),
        (3, 1, 0, 96),
        (3, 1, 0, 95),
        (3, 1, 14, 96),
        (3, 1, 15, 96),
        (3, 1, 15, 95),
        (3, 1, 16, 96),
        (3, 1, 16, 95),
        (3, 1, u64::MAX, 96),
        (41, 42, u64::MAX, 0),
    ] {
        let edge = Edge {
            edition,
            depth,
            memory,
            made,
            store,
        };
        edge.line(to)?;
    }
    Ok(())
}

// The edges of the memory level's limit.
fn level_edges(to: Stdout) -> io::Result<()> {
    for i in 0..LEVEL_EDGES {
        let at = level_edge(i);
        let edge = Edge {
            edition: 2,
            depth: at.depth,
            memory: at.memory,
            made: 0,
            store: at.store,
        };
        edge.line(to)?;
    }
    Ok(())
}

// Each edition with other numbers that are right, with a store that is short, and with more labels made than there are.
fn editions(to: Stdout) -> io::Result<()> {
    for edition in EDITIONS {
        for (made, store) in [(14, 96), (14, 95), (16, 95)] {
            let edge = Edge {
                edition,
                depth: 3,
                memory: 1,
                made,
                store,
            };
            edge.line(to)?;
        }
    }
    Ok(())
}

pub fn run_edges(to: Stdout) -> io::Result<()> {
    edges(to)?;
    level_edges(to)?;
    editions(to)
}
