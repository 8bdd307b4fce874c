// The comparison of openings: the first pair that disagrees, and both hash inputs there.
#![tactic(auto)]

mod filling; // filling.rt: the table filled from the openings
mod pairs; // pairs.rt: the first pair, by the table
mod table; // table.rt: both child labels of every node on the ways
mod whole; // whole.rt: the checks, and the comparison

pub use whole::compare;

// Two openings that disagree, by their numbers from 1, the smaller first, and the smallest level at which they do.
#[derive(Clone, Copy, Debug, PartialEq, Eq)]
pub struct Pair {
    pub first: u64,
    pub second: u64,
    pub level: u64,
}

// A pair that disagrees, with the hash inputs of both at their node of that level.
#[derive(Clone, Copy, Debug, PartialEq, Eq)]
pub struct Clash {
    pub pair: Pair,
    pub first: [u8; 105],
    pub second: [u8; 105],
}
