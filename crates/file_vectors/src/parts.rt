// Openings of a file read as parts of its bytes.
use proof_file::opening_part;
use std::io;
use std::io::Stdout;
use vector_helpers::{Hex, hash};

// The length and digest of opening i.
fn part(to: Stdout, file: &[u8], i: u64) -> io::Result<()> {
    let bytes = opening_part(file, i);
    println!(to; "part {i} {} {}", bytes.len(), Hex(&hash(bytes)))
}

// Openings 0 to count + 1, of which the first and the last are none.
pub fn every_part(to: Stdout, file: &[u8], count: u64) -> io::Result<()> {
    part(to, file, 0)?;
    part(to, file, u64::MAX)?;
    for i in (1..=count).rev() {
        part(to, file, i)?;
    }
    if count < 1000 {
        part(to, file, count + 1)
    } else {
        Ok(())
    }
}
