// SHA-256, runs and openings over lent memory, and openings checked. The stored output is an independent model's.
#![tactic(auto)]

mod blocks; // blocks.rt: blocks of messages, and of calls on runs and openings
mod checked; // checked.rt: openings checked upward to the root
mod digests; // digests.rt: SHA-256
mod openings; // openings.rt: every leaf of small trees opened, and the edges of each refusal
mod run_edges; // run_edges.rt: starting and continuing a run at the edges of each refusal
mod runs; // runs.rt: runs to their end

use blocks::blocks;
use checked::checked;
use digests::digests;
use openings::{opening_edges, openings};
use run_edges::run_edges;
use runs::runs;

// What cannot be written is passed over.
fn main(rt: HostRuntime) {
    let to = rt.stdout();
    let _ = digests(to);
    let _ = runs(to);
    let _ = run_edges(to);
    let _ = openings(to, 1);
    let _ = openings(to, 2);
    let _ = opening_edges(to);
    let _ = checked(to, 1, 2);
    let _ = checked(to, 2, 1);
    let _ = blocks(to);
}
