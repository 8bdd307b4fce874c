// Sealing a statement: labels, openings and the proof file, a portion of labels at a time, with progress and checkpoints by the clock.
#![tactic(auto)]

mod labels; // labels.rt: the tree labelled
mod opening_all; // opening_all.rt: the openings made
mod portions; // portions.rt: how many labels in all
mod resuming; // resuming.rt: a seal taken up from its checkpoint
mod saving; // saving.rt: checkpoints written when they are due

ghost use Rattle.std.specs.Prelude.{◌≡◌, ◌≤◌, length};
ghost use Rattle.base.specs.Limits.{IsCount};
ghost use Rattle.file_head.specs.Layout.{file_size};
ghost use Rattle.run.specs.Rows.{continue_row};
ghost use Rattle.sealing.specs.Front.{Seals};

use base::label_at;
use file_head::write_head;
use labelling::Tree;
use labels::label_on;
use opening_all::open_rest;
pub use portions::all_labels;
use progress::Progress;
pub use resuming::take_up;
use run::Run;
use saving::save_after_labels;
use std::fs::File;
use std::rt::{Clock, Files};

// How many labels are made between two looks at the clock.
const PORTION: u64 = 16384;

// A seal where it is: the order's challenges, how many openings are finished, and the run.
#[derive(Clone, Copy, Debug, PartialEq, Eq)]
pub struct Seal {
    pub count: u64,
    pub done: u64,
    pub run: Run,
}

// The tree that a run labels.
fn tree_of(run: &Run) -> Tree
    ensures { result ≡ record { statement = run.now.statement; edition = run.now.edition; depth = run.now.depth } }
{
    Tree {
        statement: run.statement,
        edition: run.edition,
        depth: run.depth,
    }
}

// A seal from wherever it is to its end, and the root: the labels that the run has yet to make, then the openings that are not finished; those
// that are stand in the file. What is on the way of a start gives the tree's file in the run's edition, whatever the pauses were.
pub fn seal_on<R: Files<File = File> + Clock>(
    rt: &R,
    seal: Seal,
    store: &mut [u8],
    file: &mut [u8],
    proof: &[u8],
    progress: &mut Progress<'_>,
) -> [u8; 32]
    requires run_goes_on { continue_row seal.run (length store.old) ≡ 0 }
    requires count { IsCount seal.count × (seal.done ≤ seal.count) }
    requires room { file_size seal.run.depth seal.count ≤ length file.old }
    ensures { Seals seal.run store.old seal.count seal.done file.old result file.new }
{
    let mut ending = seal;
    label_on(rt, &mut ending.run, seal.count, store, proof, progress);
    let root = label_at(&ending.run.held, 0);
    let run = &seal.run;
    let _ = write_head(
        run.edition,
        run.statement,
        root,
        run.depth,
        seal.count,
        file,
    );
    save_after_labels(rt, &ending, store, file, proof, progress);
    open_rest(rt, &mut ending, root, store, file, proof, progress);
    root
}
