// The tree labelled, from wherever its run is.
ghost use Rattle.std.specs.Prelude.{◌≡◌, length};
ghost use Rattle.run.specs.Rows.{continue_row};
ghost use Rattle.run.specs.Steps.{stamped, steps};
ghost use Rattle.run_record_theory.specs.Pausing.{remaining_of};

use crate::PORTION;
use crate::saving::save_run;
use progress::Progress;
use run::{Run, nodes};
use std::fs::File;
use std::rt::{Clock, Files};

// A run from where it is to its end, a portion a call. The order's count of challenges and the proof's name are for its checkpoints.
pub fn label_on<R: Files<File = File> + Clock>(
    rt: &R,
    run: &mut Run,
    count: u64,
    store: &mut [u8],
    proof: &[u8],
    progress: &mut Progress<'_>,
)
    requires { continue_row run.old (length store.old) ≡ 0 }
    ensures run_after { run.new ≡ (steps (remaining_of (stamped run.old store.old)) (stamped run.old store.old)).run }
    ensures store_after { store.new ≡ (steps (remaining_of (stamped run.old store.old)) (stamped run.old store.old)).store }
{
    let mut left = nodes(run.depth) - run.made;
    // Not a `for`: the last portion is what is left.
    while 0 < left {
        let budget = left.min(PORTION);
        // No call is refused: what is asked of the run holds at each turn.
        let _ = run.advance(budget, store);
        left -= budget;
        progress.tick(rt, budget);
        save_run(rt, run, count, store, proof, progress);
    }
}
