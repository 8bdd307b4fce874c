// What a call answered, the digest of a whole unit, and where the stores of its runs lie.
use base::{Refusal, big_endian, outcome_number};
use labelling::Work;
use sha256::Hash;
use std::io;
use std::io::Stdout;
use unit::StampingUnit;
use vector_helpers::{NO_WORK, digest_of, hash_run};

// Refusal, labels, blocks, the run served last and the labels made of each place.
pub fn answer_line(
    to: Stdout,
    budget: u64,
    answer: Result<Work, Refusal>,
    unit: &StampingUnit,
) -> io::Result<()> {
    let work = answer.unwrap_or(NO_WORK);
    print!(to;
        "budget {budget} {} {}",
        outcome_number(answer),
        work.labels
    )?;
    print!(to; " {} {}", work.blocks, unit.last)?;
    for run in &unit.runs {
        print!(to; " {}", run.made)?;
    }
    println!(to; "")
}

// The digest of a whole unit: the number of runs, the run served last, and all places.
pub fn unit_digest(unit: &StampingUnit) -> [u8; 32] {
    let mut state = Hash::new();
    let _ = state.update(&big_endian(unit.count));
    let _ = state.update(&big_endian(unit.last));
    for run in &unit.runs {
        hash_run(&mut state, run);
    }
    digest_of(&state)
}

// Where the store of each name lies: of 0 to 9, of 2^32 + 1 and of the greatest number; 0 and 0 where there is none.
pub fn places(to: Stdout, unit: &StampingUnit, store: &[u8]) -> io::Result<()> {
    for name in [0, 1, 2, 3, 4, 5, 6, 7, 8, 9, 4294967297, u64::MAX] {
        match unit.store_place(name, store) {
            Some(place) => print!(to; " {} {}", place.offset, place.length)?,
            None => print!(to; " 0 0")?,
        }
    }
    Ok(())
}
