// What the program is asked: its words as one line of bytes, read into an order.
#![tactic(auto)]

mod kinds; // kinds.rt: the words that are known
mod operands; // operands.rt: an option and the operands
mod orders; // orders.rt: the order, or what is wrong with the words
mod parting; // parting.rt: the words of a line
mod rows; // rows.rt: what can be wrong with the words
mod values; // values.rt: the number that a word says

pub use operands::{proof, report};
pub use orders::read_order;
pub use parting::{join, word, word_count};
pub use values::value;

// What the first word asks for.
#[derive(Clone, Copy, Debug, PartialEq, Eq)]
pub enum Kind {
    Seal,
    Verify,
    Chain,
    Info,
    Help,
    Version,
}

// What is wrong with the words.
#[derive(Clone, Copy, Debug, PartialEq, Eq)]
pub enum Problem {
    NoWord,
    UnknownWord,
    Missing,
    Surplus,
    NoPath,
    LongPath,
    Depth,
    Challenges,
    Memory,
    Seconds,
}

// The parts of a line: what the first word asks for, how many words there are, the place of the option, the place of the first operand,
// and how many operands there are.
#[derive(Clone, Copy, Debug, PartialEq, Eq)]
pub struct Parts {
    pub kind: Option<Kind>,
    pub all: usize,
    pub option: Option<usize>,
    pub first: usize,
    pub count: usize,
}

// What is to be sealed: depth, challenges, memory level, and the seconds between checkpoints.
#[derive(Clone, Copy, Debug, PartialEq, Eq)]
pub struct SealOrder {
    pub depth: u64,
    pub challenges: u64,
    pub memory: u64,
    pub seconds: u64,
}

// The depth and count that `verify` is to want.
#[derive(Clone, Copy, Debug, PartialEq, Eq)]
pub struct Wanted {
    pub depth: u64,
    pub challenges: u64,
}

// What is to be done; `verify` with what the head says, with depth and count wanted, or with the least of both.
#[derive(Clone, Copy, Debug, PartialEq, Eq)]
pub enum Order {
    Seal(SealOrder),
    Verify,
    VerifyAs(Wanted),
    VerifyAtLeast(Wanted),
    Chain,
    Info,
    Help,
    Version,
}
