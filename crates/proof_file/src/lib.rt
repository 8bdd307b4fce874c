// The proof file: where its openings lie, and its check.
#![tactic(auto)]

mod file; // file.rt: the check of a file
mod place; // place.rt: where an opening lies, and openings as parts of the bytes

pub use file::{check_file, check_file_code};
pub use place::{Place, opening_part, opening_place};
