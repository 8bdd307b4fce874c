// What is told of a proof and its drawing, as text: the verdict, a refusal, a clash, a chain, a head; and the exit status.
#![tactic(auto)]

mod differing; // differing.rt: what of a file is not as wanted
mod drawing; // drawing.rt: what `chain` prints
mod facts; // facts.rt: what `info` prints
mod heads; // heads.rt: what a file's head says
mod sentences; // sentences.rt: a refusal in plain words
mod status; // status.rt: the exit status
mod telling; // telling.rt: the lines of a drawing
#[cfg(test)]
mod tests; // tests.rt: a refusal by its number

pub use drawing::{put_chain, put_drawing};
pub use facts::{check_shape, info};
pub use heads::{found_in, larger};
pub use sentences::{plain, plain_refusal};
pub use status::{chain_status, info_status, verdict_status};
pub use telling::{clash_lines, refused, refused_by, verdict};

// Zeros where the head cannot be read: so `wanted_text` and `found_of` of specs/ say it, which tell such a file by its refusal alone.
// What a file's head says: edition, depth and count, each 0 if it cannot be read, and whether the statement behind them is the report's.
#[derive(Clone, Copy, Debug, PartialEq, Eq)]
pub struct Found {
    pub edition: u64,
    pub depth: u64,
    pub count: u64,
    pub same_report: bool,
}
