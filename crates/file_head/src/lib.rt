// The layout of a proof file: its sizes, its head written and read, and the challenges that its statement and root give.
#![tactic(auto)]

mod challenges; // challenges.rt: the leaves that are opened
mod lengths; // lengths.rt: sizes and places by a file's numbers
mod reading; // reading.rt: the head read
mod sizes; // sizes.rt: the head's numbers, and the sizes and places that they give
mod writing; // writing.rt: the head written

pub use challenges::{challenge, challenge_leaf};
pub use lengths::{file_length, opening_start};
pub use reading::read_head;
pub use sizes::Head;
pub use writing::{file_size, may_write, write_head};
