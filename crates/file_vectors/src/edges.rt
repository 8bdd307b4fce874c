// Refusals of starting and continuing to write a file, at their edges.
use base::outcome_number;
use labelling::Tree;
use opening::Opening;
use std::io;
use std::io::Stdout;
use vector_helpers::{EDITIONS, Hex, IsSame, LEVEL_EDGES, NO_WORK, hash, level_edge};
use writing::Writing;

// Every number of a writing, and the digests of its root, statement and places.
fn whole(to: Stdout, writing: &Writing) -> io::Result<()> {
    let opening = writing.opening;
    print!(to; " {} {} {}", writing.count, writing.number, opening.edition)?;
    print!(to;
        " {} {} {} {}",
        opening.depth, opening.memory, opening.leaf, opening.made
    )?;
    print!(to;
        " {} {}",
        Hex(&hash(&writing.root)),
        Hex(&hash(&opening.statement))
    )?;
    print!(to; " {}", Hex(&hash(&opening.held)))
}

// Starting with these numbers, and continuing opening `number` of a leaf with `made` labels made, over a store and a file of these lengths.
#[derive(Clone, Copy)]
struct Edge {
    edition: u64,
    depth: u64,
    memory: u64,
    count: u64,
    number: u64,
    leaf: u64,
    made: u64,
    store: usize,
    file: usize,
}

impl Edge {
    // What starting answers, and whether the file is changed.
    fn starts(self, to: Stdout, store: &[u8], file: &mut [u8]) -> io::Result<()> {
        let before = hash(file);
        let tree = Tree {
            statement: [7u8; 32],
            edition: self.edition,
            depth: self.depth,
        };
        let answer = Writing::start(tree, [8u8; 32], self.memory, self.count, store, file);
        print!(to;
            ": start {} {}",
            outcome_number(answer),
            IsSame(before == hash(file))
        )
    }

    // An opening under way in a file under writing.
    fn under_way(self) -> Writing {
        let opening = Opening {
            statement: [7u8; 32],
            edition: self.edition,
            depth: self.depth,
            memory: self.memory,
            leaf: self.leaf,
            made: self.made,
            held: [9u8; 1312],
        };
        Writing {
            root: [8u8; 32],
            count: self.count,
            number: self.number,
            opening,
        }
    }

    // The same of continuing by one label.
    fn continues(self, to: Stdout, store: &[u8], file: &mut [u8]) -> io::Result<()> {
        let before = hash(file);
        let mut writing = self.under_way();
        let answer = writing.advance(1, store, file);
        let work = answer.unwrap_or(NO_WORK);
        print!(to;
            " continue {} labels {}",
            outcome_number(answer),
            work.labels
        )?;
        print!(to; " blocks {} {}", work.blocks, IsSame(before == hash(file)))?;
        whole(to, &writing)
    }

    // Both.
    fn line(self, to: Stdout) -> io::Result<()> {
        print!(to;
            "edge {} {} {} {}",
            self.edition, self.depth, self.memory, self.count
        )?;
        print!(to; " {} {} {}", self.number, self.leaf, self.made)?;
        print!(to; " {} {}", self.store, self.file)?;
        let space = space();
        let mut output = [2u8; 1379];
        if let (Some(store), Some(file)) = (space.get(..self.store), output.get_mut(..self.file)) {
            self.starts(to, store, file)?;
            file.fill(2);
            self.continues(to, store, file)?;
        }
        println!(to; "")
    }
}

// Room for every memory level.
fn space() -> [u8; 1048544] {
    [1u8; 1048544]
}

// Opening 1 with no label made.
fn starting(to: Stdout) -> io::Result<()> {
    for (depth, memory, count, leaf, store, file) in [
        (0, 0, 1, 0, 32, 131),
        (41, 0, 1, 0, 32, 1024),
    ] {
        let edge = Edge {
            edition: 2,
            depth,
            memory,
            count,
            number: 1,
            leaf,
            made: 0,
            store,
            file,
        };
        edge.line(to)?;
    }
    let edge = Edge {
        edition: 2,
        depth: u64::MAX,
        memory: u64::MAX,
        count: 0,
        number: 0,
        leaf: 0,
        made: 0,
        store: 0,
        file: 0,
    };
    edge.line(to)?;
    for (depth, memory, count, leaf, store, file) in [
        (3, 4, 1, 0, 992, 1024),
        (3, 3, 1, 7, 479, 1024),
        (3, 3, 1, 7, 480, 194),
        (3, 3, 1, 7, 480, 195),
        (3, 3, 0, 7, 480, 1024),
        (3, 3, 201, 7, 480, 1024),
        (3, 3, 0, 7, 479, 0),
        (3, 3, 0, 7, 480, 0),
        (40, 0, 1, 0, 32, 1024),
        (1, 0, 1, 0, 32, 131),
        (1, 0, 1, 0, 32, 130),
        (1, 0, 1, 0, 31, 130),
    ] {
        let edge = Edge {
            edition: 2,
            depth,
            memory,
            count,
            number: 1,
            leaf,
            made: 0,
            store,
            file,
        };
        edge.line(to)?;
    }
    Ok(())
}

// At depth 3 and memory level 1.
fn continuing(to: Stdout) -> io::Result<()> {
    for (count, number, leaf, made, store, file) in [
        (2, 1, 7, 0, 96, 323),
        (2, 2, 7, 0, 96, 323),
        (2, 3, 7, 0, 96, 323),
        (2, 0, 7, 0, 96, 323),
        (2, 2, 8, 0, 96, 323),
        (2, 2, 7, 6, 96, 323),
        (2, 2, 7, 7, 96, 323),
        (2, 2, 7, 7, 95, 322),
        (2, 2, 7, 6, 95, 322),
        (2, 2, 7, 6, 96, 322),
        (2, u64::MAX, 7, 0, 96, 323),
        (u64::MAX, 1, 7, 0, 96, 323),
        (2, 1, u64::MAX, 0, 96, 323),
        (2, 1, 7, u64::MAX, 96, 323),
    ] {
        let edge = Edge {
            edition: 2,
            depth: 3,
            memory: 1,
            count,
            number,
            leaf,
            made,
            store,
            file,
        };
        edge.line(to)?;
    }
    Ok(())
}

// The edges of the memory level's limit.
fn level_edges(to: Stdout) -> io::Result<()> {
    for i in 0..LEVEL_EDGES {
        let at = level_edge(i);
        let edge = Edge {
            edition: 2,
            depth: at.depth,
            memory: at.memory,
            count: 1,
            number: 1,
            leaf: 0,
            made: 0,
            store: at.store,
            file: 1379,
        };
        edge.line(to)?;
    }
    Ok(())
}

// Each edition with other numbers that are right, and with all of them wrong.
fn editions(to: Stdout) -> io::Result<()> {
    for edition in EDITIONS {
        for (depth, memory, count, number, leaf, made, store, file) in [
            (3, 1, 2, 2, 7, 0, 96, 323),
            (3, 1, 2, 2, 7, 0, 95, 322),
            (41, 42, 0, 0, 8, 7, 0, 0),
        ] {
            let edge = Edge {
                edition,
                depth,
                memory,
                count,
                number,
                leaf,
                made,
                store,
                file,
            };
            edge.line(to)?;
        }
    }
    Ok(())
}

pub fn edges(to: Stdout) -> io::Result<()> {
    starting(to)?;
    continuing(to)?;
    level_edges(to)?;
    editions(to)
}
