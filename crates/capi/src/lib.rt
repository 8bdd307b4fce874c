// The public calls for C and Rust: structs by value, numbers, and slices as a pointer and a length. Refusals are document 01's
// numbers, 0 where there is none; a C struct has them beside its values, which are zero where a call is refused. Each call passes on,
// with the contract of the one that it calls. Crate capi_c exports them to C.
#![tactic(auto)]

mod chains; // chains.rt: planning, comparing and drawing
mod files; // files.rt: challenges, the head, and the checks of openings and files
mod hashes; // hashes.rt: SHA-256
mod openings; // openings.rt: openings
mod runs; // runs.rt: runs, and their records
mod units; // units.rt: several runs in one unit
mod writings; // writings.rt: whole files by budgets

pub use chains::{Clash, Compared, Drawn, Planned, mastdock_compare, mastdock_draw, mastdock_plan};
pub use files::{
    Challenged, HeadRead, mastdock_challenge, mastdock_check_file, mastdock_check_opening,
    mastdock_opening_place, mastdock_read_head, mastdock_write_head,
};
pub use hashes::{
    HashDigest, HashFinished, HashUpdated, mastdock_digest, mastdock_hash_finish,
    mastdock_hash_new, mastdock_hash_update,
};
pub use openings::{
    OpeningAdvanced, OpeningStarted, mastdock_opening_advance, mastdock_opening_start,
};
pub use runs::{
    RunAdvanced, RunRecorded, RunStarted, mastdock_run_advance, mastdock_run_record,
    mastdock_run_resume, mastdock_run_start,
};
pub use units::{UnitAdvanced, mastdock_unit_advance, mastdock_unit_store_place};
pub use writings::{
    WritingAdvanced, WritingStarted, mastdock_writing_advance, mastdock_writing_start,
};
