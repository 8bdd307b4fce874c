// The check of files over the shared vectors, and over every file that differs from the first of their lists in one bit; the row of a
// challenge and that of a file's head at their edges.
use base::outcome_number;
use file_head::{challenge, write_head};
use proof_file::check_file_code;
use std::io;
use std::io::Stdout;
use vector_helpers::{Hex, decimal, decode, digest, field, hash, line_end};

// The depth and count wanted, and the answer.
pub fn checked(to: Stdout, line: &[u8]) -> io::Result<()> {
    let mut space = [0u8; 1024];
    let size = decode(field(line, 0), &mut space);
    let statement = digest(field(line, 1));
    let depth = decimal(field(line, 2));
    let count = decimal(field(line, 3));
    println!(to;
        "vector {depth} {count} {}",
        check_file_code(&space[..size], statement, depth, count)
    )
}

// The answer to so many of the bytes as a file of one opening of depth 1.
fn front_answer(to: Stdout, bytes: &[u8], size: usize, statement: [u8; 32]) -> io::Result<()> {
    match bytes.get(..size) {
        Some(file) => answer(to, file, statement),
        None => Ok(()),
    }
}

// The answer to a file of one opening of depth 1.
fn answer(to: Stdout, file: &[u8], statement: [u8; 32]) -> io::Result<()> {
    print!(to; " {}", check_file_code(file, statement, 1, 1))
}

// The answers to each bit of each byte changed.
fn every_bit(to: Stdout, file: &mut [u8], statement: [u8; 32]) -> io::Result<()> {
    for i in 0..file.len() {
        print!(to; "flipped")?;
        for bit in [1, 2, 4, 8, 16, 32, 64, 128] {
            file[i] ^= bit;
            answer(to, file, statement)?;
            file[i] ^= bit;
        }
        println!(to; "")?;
    }
    Ok(())
}

// The file of the first vector whole, empty, a byte short and with a byte more; then with each bit changed.
fn small(to: Stdout, line: &[u8]) -> io::Result<()> {
    let mut space = [0u8; 132];
    decode(field(line, 0), &mut space);
    let mut file = [0u8; 131];
    decode(field(line, 0), &mut file);
    let statement = digest(field(line, 1));
    print!(to; "lengths")?;
    for size in [131, 0, 130, 132] {
        front_answer(to, &space, size, statement)?;
    }
    println!(to; "")?;
    every_bit(to, &mut file, statement)
}

// The line behind the comment.
pub fn first(to: Stdout, text: &[u8]) -> io::Result<()> {
    let comment = line_end(text, 0);
    if comment < text.len() {
        let end = line_end(text, comment + 1);
        small(to, &text[comment + 1..end])
    } else {
        Ok(())
    }
}

// The outcome of challenge i at depth n, and its leaf.
fn challenged(to: Stdout, edition: u64, n: u64, i: u64) -> io::Result<()> {
    let picked = challenge(edition, n, hash(b"challenged"), hash(b"root"), i);
    println!(to;
        "challenge {edition} {n} {i} {} {}",
        outcome_number(picked),
        picked.unwrap_or(0)
    )
}

fn challenges_at(to: Stdout, edition: u64, n: u64) -> io::Result<()> {
    for i in [0, 1, 2, 199, 200, 201, 4294967297, u64::MAX] {
        challenged(to, edition, n, i)?;
    }
    Ok(())
}

// As long as the longest file, and a byte more.
fn file_space() -> [u8; 262469] {
    [90u8; 262469]
}

// The outcome of writing a head to so many bytes, and the digest of the bytes afterwards.
fn head(to: Stdout, edition: u64, n: u64, t: u64, size: usize) -> io::Result<()> {
    let mut space = file_space();
    let Some(out) = space.get_mut(..size) else {
        return Ok(());
    };
    let outcome = write_head(edition, hash(b"headed"), hash(b"root"), n, t, out);
    println!(to;
        "head {edition} {n} {t} {size} {} {}",
        outcome_number(outcome),
        Hex(&hash(out))
    )
}

// Editions but 2 that exist or not.
const OTHER_EDITIONS: [u64; 5] = [0, 1, 3, 4294967298, u64::MAX];

// Each edition at a depth that is right and at one that is not.
fn challenges(to: Stdout) -> io::Result<()> {
    for n in [0, 1, 2, 39, 40, 41, u64::MAX] {
        challenges_at(to, 2, n)?;
    }
    for edition in OTHER_EDITIONS {
        for n in [40, 41] {
            challenges_at(to, edition, n)?;
        }
    }
    Ok(())
}

// Each edition with room and without, and with all else wrong.
fn heads(to: Stdout) -> io::Result<()> {
    for (n, t, size) in [
        (0, 1, 262469),
        (0, 0, 0),
        (41, 1, 262469),
        (1, 0, 131),
        (1, 0, 0),
        (1, 201, 262469),
        (u64::MAX, u64::MAX, 0),
        (40, u64::MAX, 262469),
        (1, 1, 131),
        (1, 1, 130),
        (1, 1, 132),
        (40, 200, 262468),
        (40, 200, 262467),
        (40, 200, 262469),
        (1, 127, 8195),
        (1, 127, 8194),
        (1, 128, 8260),
        (1, 128, 8259),
    ] {
        head(to, 2, n, t, size)?;
    }
    for edition in OTHER_EDITIONS {
        for (n, t, size) in [(1, 1, 131), (1, 1, 130), (40, 200, 262468), (41, 201, 0)] {
            head(to, edition, n, t, size)?;
        }
    }
    Ok(())
}

// The rows of a challenge and of a head.
pub fn rows(to: Stdout) -> io::Result<()> {
    challenges(to)?;
    heads(to)
}
