// W-201: a run written out as bytes, its record, and taken up elsewhere. The store travels separately.
#![tactic(auto)]

mod numbers; // numbers.rt: the record's numbers read
mod reading; // reading.rt: any bytes read as a run
mod writing; // writing.rt: the record written

use groups::NUMBER_GROUPS;
pub use reading::read_record;
pub use writing::write_record;

// The most groups of the labels made, and the bytes that the four numbers take at most: specs/Layout.antt.
const MADE_GROUPS: usize = 6;

const NUMBERS_SPACE: usize = 3 * NUMBER_GROUPS + MADE_GROUPS;

// A record's four numbers, and the place after them.
#[derive(Clone, Copy, Debug, PartialEq, Eq)]
pub struct RecordNumbers {
    pub edition: u64,
    pub depth: u64,
    pub memory: u64,
    pub made: u64,
    pub end: usize,
}
