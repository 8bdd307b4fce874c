// The program's arguments as one line of words, each ended by a byte 0.
ghost use Rattle.std.specs.Prelude.{◌≤◌, ◌≡◌};
ghost use Rattle.base.specs.Bytes.{zeros};

use crate::{UNTRIED, command};
use descriptors::Stream;
use std::env::FillError;
use std::fs::File;
use std::rt::{Clock, Env, Files};

// Room for eight words and one too many, each of 4,097 bytes at most.
fn line_space() -> [u8; 40960]
    ensures { result ≡ zeros 40960 }
{
    [0u8; 40960]
}

// Adds argument i. One that is too long for any path is cut, and so still too long.
fn add_argument<R: Env>(rt: &R, line: &mut [u8], at: usize, i: usize) -> usize {
    let mut word = [0u8; 4097];
    match rt.arg(i, &mut word) {
        Ok(length) => words::join(line, at, &word[..length]),
        Err(FillError::TooLong) => words::join(line, at, &word),
        Err(FillError::NotPresent) => at,
    }
}

// Whether there is an argument i.
fn has_argument<R: Env>(rt: &R, i: usize) -> bool {
    let mut word = [0u8; 4097];
    !matches!(rt.arg(i, &mut word), Err(FillError::NotPresent))
}

// The program's name and its words, of which one more than any order has is enough to see that there are too many.
fn argument_count<R: Env>(rt: &R) -> usize
    ensures { result ≤ 10 }
{
    for i in 0..10 {
        if !has_argument(rt, i) {
            return i;
        }
    }
    10
}

// Does what the program's arguments ask, and answers with the status. `input` is standard input.
pub fn run_arguments<R: Env + Files<File = File> + Clock>(
    rt: &R,
    input: Stream<'_>,
    out: Stream<'_>,
    err: Stream<'_>,
) -> u8 {
    let mut line = line_space();
    let mut at = 0;
    for i in 1..argument_count(rt) {
        at = add_argument(rt, &mut line, at, i);
    }
    match line.get(..at) {
        Some(words) => command(rt, words, input, out, err),
        None => UNTRIED,
    }
}
