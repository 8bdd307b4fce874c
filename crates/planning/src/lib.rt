// What the planning program does, on slices: reads its input, plans, and lays out what is printed.
#![tactic(auto)]

mod answering;
mod texts;

pub use answering::{MAX_OUTPUT, answer, put_plan};
