// Lines of text, built in a place of 8,192 bytes and written in one piece.
#![tactic(auto)]

mod adding; // adding.rt: a line under way
mod errors; // errors.rt: the system's errors in words
mod saying; // saying.rt: lines to a stream
mod telling; // telling.rt: how far a run is, and how long it takes
mod texts; // texts.rt: the lines that the program prints

pub use saying::{complain, complain_line, complain_of, or_complain, say, say_text, write_line};
pub use telling::{anew, duration, forecast, progress, resumed_at, resumed_opening};
pub use texts::{accepted, clash, fact, fact_bytes, rejected};

// The most bytes of a line.
const ROOM: usize = 8192;

// A line under way: the first `length` bytes of its text. What stands behind them says nothing and is never printed. It is no Vec: what is
// said of a failure must need no memory. Nor is it a text: a path that it shows need not be UTF-8.
#[derive(Clone, Copy)]
pub struct Line {
    pub text: [u8; ROOM],
    pub length: usize,
}
