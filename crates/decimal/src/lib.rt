// Decimal numbers: read from a text, and laid out as one.
#![tactic(auto)]

mod reading; // reading.rt: the numbers of a text
mod texts; // texts.rt: a number as text

pub use reading::{Numbers, is_readable, read_numbers};
pub use texts::{Spelled, end_line, put_field, spell};
