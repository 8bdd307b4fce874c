// Checkpoints written when they are due. What they are is `checkpoint_of` of checkpoint's specs; here is when and of what.
ghost use Rattle.std.specs.Prelude.{◌≡◌, ◌-◌, ◌*◌, ◌≤◌};
ghost use Rattle.base.specs.Limits.{max_depth, max_challenges};
ghost use Rattle.tree.specs.Openings.{opening_size};
ghost use Rattle.tree.specs.Walk.{nodes_in};
ghost use Rattle.file_head.specs.Layout.{file_size};
ghost use Rattle.sealing.specs.Front.{Finished};

use crate::Seal;
use checkpoint::{MAX_CHECKPOINT, write_checkpoint};
use descriptors::Stream;
use file_head::file_size;
use progress::Progress;
use run::Run;
use std::fs::File;
use std::rt::{Clock, Files};

fn empty_space() -> [u8; MAX_CHECKPOINT] {
    [0u8; MAX_CHECKPOINT]
}

// The checkpoint of a run, with the openings that are finished behind it. Answers whether it is on the disk.
fn save_all<R: Files<File = File>>(
    rt: &R,
    run: &Run,
    count: u64,
    store: &[u8],
    openings: &[u8],
    proof: &[u8],
    err: Stream<'_>,
) -> bool {
    let mut space = empty_space();
    match write_checkpoint(*run, count, store, &mut space) {
        Ok(size) => files::save(rt, proof, space.get(..size).unwrap_or(&[]), openings, err),
        Err(_) => false,
    }
}

// The checkpoint of a run under way, if it is due.
pub fn save_run<R: Files<File = File> + Clock>(
    rt: &R,
    run: &Run,
    count: u64,
    store: &[u8],
    proof: &[u8],
    progress: &mut Progress<'_>,
) {
    if progress.is_due(rt) {
        save_all(rt, run, count, store, b"", proof, progress.err);
        progress.saved(rt, false);
    }
}

// Where opening i ends in the file. Opening 0 is the head.
fn opening_end(depth: u64, count: u64, i: u64) -> usize
    requires { (depth ≤ max_depth) × (count ≤ max_challenges) × (i ≤ count) }
    ensures { result ≡ file_size depth count - (count - i) * opening_size depth }
{
    file_size(depth, count) - ((count - i) * (32 * (depth + 1))) as usize
}

// The openings of a file after the first `done`, up to those that are finished.
fn openings_after<'a>(seal: &Seal, done: u64, file: &'a [u8]) -> &'a [u8]
    requires { Finished seal.now × (done ≤ seal.now.done) }
{
    let from = opening_end(seal.run.depth, seal.count, done);
    let end = opening_end(seal.run.depth, seal.count, seal.done);
    file.get(from..end).unwrap_or(&[])
}

// The checkpoint of the finished run, with the openings that are finished.
fn save_finished<R: Files<File = File> + Clock>(
    rt: &R,
    seal: &Seal,
    store: &[u8],
    file: &[u8],
    proof: &[u8],
    progress: &mut Progress<'_>,
)
    requires { Finished seal.now }
{
    let openings = openings_after(seal, 0, file);
    let whole = save_all(
        rt,
        &seal.run,
        seal.count,
        store,
        openings,
        proof,
        progress.err,
    );
    progress.saved(rt, whole);
}

// All labels are made, and some openings.
pub fn save_after_labels<R: Files<File = File> + Clock>(
    rt: &R,
    seal: &Seal,
    store: &[u8],
    file: &[u8],
    proof: &[u8],
    progress: &mut Progress<'_>,
)
    requires { Finished seal.now }
{
    if progress.is_due_after_labels(rt) {
        save_finished(rt, seal, store, file, proof, progress);
    }
}

// The last opening that is finished goes behind the checkpoint of the finished run; where that is not there yet it is written when it is due.
pub fn save_opening<R: Files<File = File> + Clock>(
    rt: &R,
    seal: &Seal,
    store: &[u8],
    file: &[u8],
    proof: &[u8],
    progress: &mut Progress<'_>,
)
    requires { Finished seal.now × (1 ≤ seal.now.done) }
{
    if progress.ended {
        let opening = openings_after(seal, seal.done - 1, file);
        let sync = progress.is_sync_due(rt);
        let good = files::save_opening(rt, proof, opening, sync);
        progress.appended(rt, good, sync);
    } else if progress.is_due_at_end(rt) {
        save_finished(rt, seal, store, file, proof, progress);
    }
}
