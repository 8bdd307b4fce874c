// The calls of crate capi under their names in C, one export for each, with its clauses: the static library for C and Rust. A crate is a
// library or a static library, not both, so this one stands over capi.
#![tactic(auto)]

mod chains; // chains.rt: planning, comparing and drawing
mod files; // files.rt: challenges, the head, and the checks of openings and files
mod hashes; // hashes.rt: SHA-256
mod openings; // openings.rt: openings
mod runs; // runs.rt: runs, and their records
mod units; // units.rt: several runs in one unit
mod writings; // writings.rt: whole files by budgets
