// The vectors of an edition's chains: each file written from its report and drawn, with a list just long enough, one that is longer and
// one that is short, and the same chain planned.
use crate::compared::{clash_words, no_inputs};
use base::{Rejection, number, outcome_number};
use chain::plan;
use draw::{Drawing, draw};
use proof_file::check_file_code;
use std::io;
use std::io::Stdout;
use vector_helpers::{
    Hex, Stamping, challenged, decimal, decode, field, hash, most, places_digest,
};

// Room for the longest file, and a byte more.
fn file_space() -> [u8; 83269] {
    [90u8; 83269]
}

// A list of 1,108 places, which held something else.
fn list_space() -> [u64; 1108] {
    [9u64; 1108]
}

fn places_line(to: Stdout, list: &[u64]) -> io::Result<()> {
    println!(to; " {}", Hex(&places_digest(list)))
}

// What was drawn, and the digests of both inputs; those of zeros where there are none.
fn drawing_words(to: Stdout, answer: Result<Drawing, Rejection>) -> io::Result<()> {
    match answer {
        Ok(Drawing::Clash(clash)) => clash_words(to, &clash),
        Ok(Drawing::Chain(count)) => {
            print!(to; " chain {count}")?;
            no_inputs(to)
        }
        Err(rejection) => {
            print!(to;
                " refused {} {}",
                number(rejection.refusal),
                rejection.opening
            )?;
            no_inputs(to)
        }
    }
}

// What a file is to prove: a statement, with a depth and a number of challenges.
#[derive(Clone, Copy)]
struct Wanted {
    statement: [u8; 32],
    depth: u64,
    count: u64,
}

impl Wanted {
    // Draws to so many places: the answer, the inputs' digests, and the list afterwards.
    fn drawn(self, to: Stdout, name: &str, file: &[u8], places: usize) -> io::Result<()> {
        let mut space = list_space();
        let Some(list) = space.get_mut(..places) else {
            return Ok(());
        };
        print!(to; "{name}")?;
        drawing_words(to, draw(file, self.statement, self.depth, self.count, list))?;
        places_line(to, list)
    }

    // The file, and what is drawn from it to lists that are long enough, and to shorter ones; then from fewer challenges, and from a file with a
    // byte changed, which is refused and leaves the list untouched.
    fn lines(self, to: Stdout, file: &mut [u8], places: usize) -> io::Result<()> {
        let code = check_file_code(file, self.statement, self.depth, self.count);
        println!(to; "file {} {} {code}", file.len(), Hex(&hash(file)))?;
        self.drawn(to, "just enough", file, places)?;
        self.drawn(to, "more", file, 1108)?;
        if let Some(short) = places.checked_sub(1) {
            self.drawn(to, "one short", file, short)?;
        }
        self.drawn(to, "none", file, 0)?;
        Wanted { count: 1, ..self }.drawn(to, "not wanted", file, 1108)?;
        if let Some(byte) = file.get_mut(5000) {
            *byte ^= 16;
            self.drawn(to, "changed", file, 1108)?;
        }
        Ok(())
    }
}

// Plans the chain of leaves to so many places.
fn planned(to: Stdout, depth: u64, leaves: &[u64], places: usize) -> io::Result<()> {
    let mut space = list_space();
    let Some(list) = space.get_mut(..places) else {
        return Ok(());
    };
    let planned = plan(depth, leaves, list);
    print!(to;
        "planned {} {}",
        outcome_number(planned),
        planned.unwrap_or(0)
    )?;
    places_line(to, list)
}

// One memory level: the file and the byte behind it, what is drawn from it, and the plan of its leaves.
fn level(to: Stdout, of: Stamping, count: u64, size: usize, places: usize) -> io::Result<()> {
    let mut space = file_space();
    let root = of.write_file(count, &mut space);
    print!(to; "vector {}", of.edition)?;
    if let Some(behind) = space.get(size) {
        println!(to; " {behind}")?;
        let wanted = Wanted {
            statement: of.statement,
            depth: of.depth,
            count,
        };
        wanted.lines(to, &mut space[..size], places)?;
    }
    let leaves = challenged(of.edition, of.depth, of.statement, root);
    match leaves.get(..count as usize) {
        Some(leaves) => planned(to, of.depth, leaves, places),
        None => Ok(()),
    }
}

pub fn drawn_and_planned(to: Stdout, edition: u64, line: &[u8]) -> io::Result<()> {
    let mut report = [0u8; 64];
    let length = decode(field(line, 0), &mut report);
    let statement = hash(&report[..length]);
    let depth = decimal(field(line, 1));
    let count = decimal(field(line, 2));
    let size = decimal(field(line, 3)) as usize;
    let places = decimal(field(line, 5)) as usize;
    for memory in [most(depth), 8] {
        level(
            to,
            Stamping {
                edition,
                statement,
                depth,
                memory,
            },
            count,
            size,
            places,
        )?;
    }
    Ok(())
}
