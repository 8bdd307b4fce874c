// The unit that a line gives: the number of runs, the run named as served last, the bytes lent, how many calls, the budget of each, and then
// edition, depth, memory level and labels made of each place. Numbers that are not there are 0.
ghost use Rattle.std.specs.Prelude.{◌≤◌};

use base::{HELD_SIZE, big_endian};
use run::Run;
use std::array;
use unit::StampingUnit;
use vector_helpers::{decimal, field, hash};

// A field in decimal, of at most 18 digits; the only one of 20 is 2^64 − 1.
pub fn number_at(line: &[u8], i: u64) -> u64 {
    let text = field(line, i);
    if text.len() == 20 {
        u64::MAX
    } else {
        decimal(text)
    }
}

// The run of a place, whose numbers begin at a field. Its statement is that of its place's number, and something is in every place of it if there
// are labels made.
fn run_at(line: &[u8], place: u64, first: u64) -> Run
    requires { first ≤ 200 }
{
    let statement = hash(&big_endian(place));
    let made = number_at(line, first + 3);
    let filled = if made == 0 { 0 } else { 9 };
    Run {
        statement,
        edition: number_at(line, first),
        depth: number_at(line, first + 1),
        memory: number_at(line, first + 2),
        made,
        held: [filled; HELD_SIZE],
    }
}

pub fn unit_of(line: &[u8]) -> StampingUnit {
    let first = 4 + number_at(line, 3) % 100;
    let runs = array::from_fn(|i| run_at(line, i as u64 + 1, first + 4 * i as u64));
    StampingUnit {
        count: number_at(line, 0),
        last: number_at(line, 1),
        runs,
    }
}
