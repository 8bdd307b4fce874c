// The openings made over the store of a finished run, from wherever they are.
ghost use Rattle.std.specs.Prelude.{◌≡◌, ◌++◌, ◌+◌, ◌<◌, length, drop};
ghost use Rattle.base.specs.Bytes.{written};
ghost use Rattle.tree.specs.Openings.{opening_size};
ghost use Rattle.file_head.specs.Challenge.{challenge_leaf};
ghost use Rattle.file_head.specs.Layout.{head_size, opening_from, file_size};
ghost use Rattle.run_theory.specs.Openings.{HoldsLabels, Openable};
ghost use Rattle.check_theory.specs.TreeFile.{root_of, opening_of, tree_file};
ghost use Rattle.writing.specs.Possible.{Room};
ghost use Rattle.writing_theory.specs.Filed.{Writable, laid, laid_size};
ghost use Rattle.sealing.specs.Front.{Finished};

use crate::saving::save_opening;
use crate::{PORTION, Seal, tree_of};
use file_head::{challenge_leaf, file_size};
use opening::{Opening, nodes_anew};
use progress::Progress;
use run::Run;
use std::fs::File;
use std::rt::{Clock, Files};

// The opening of a leaf over the front of `part`, a portion a call.
fn open_leaf<R: Clock>(
    rt: &R,
    run: &Run,
    leaf: u64,
    store: &[u8],
    part: &mut [u8],
    progress: &mut Progress<'_>,
)
    requires { Openable run.now.edition run.now.depth run.now.memory leaf (length store.now) (length part.old) }
    ensures { HoldsLabels run.now.edition run.now.statement run.now.depth run.now.memory store.now
        → part.new ≡ opening_of run.now.edition run.now.statement run.now.depth leaf ++ drop (opening_size run.now.depth) part.old }
{
    let mut opening = Opening::start(tree_of(run), run.memory, leaf, store, part).unwrap();
    let mut left = nodes_anew(run.depth, run.memory);
    // Not a `for`: the last portion is what is left.
    while 0 < left {
        let budget = left.min(PORTION);
        // No call is refused: what is asked of the opening holds at each turn.
        let _ = opening.advance(budget, store, part);
        left -= budget;
        progress.tick(rt, budget);
    }
}

// The opening after those that are finished, in its part of the file.
fn open_next<R: Clock>(
    rt: &R,
    seal: &Seal,
    root: [u8; 32],
    store: &[u8],
    file: &mut [u8],
    progress: &mut Progress<'_>,
)
    requires { Room seal.now.run.edition seal.now.run.depth seal.now.run.memory seal.now.count (seal.now.done + 1) (length store.now)
        (length file.old) }
    ensures { HoldsLabels seal.now.run.edition seal.now.run.statement seal.now.run.depth seal.now.run.memory store.now
        → file.new ≡ written file.old (opening_from seal.now.run.depth (head_size seal.now.run.depth seal.now.count) (seal.now.done + 1))
        (opening_of seal.now.run.edition seal.now.run.statement seal.now.run.depth
        (challenge_leaf seal.now.run.edition seal.now.run.depth seal.now.run.statement root (seal.now.done + 1))) }
{
    let run = &seal.run;
    let leaf = challenge_leaf(run.edition, run.depth, run.statement, root, seal.done + 1);
    let size = (32 * (run.depth + 1)) as usize;
    let from = file_size(run.depth, seal.count) - ((seal.count - seal.done) as usize) * size;
    let end = from + size;
    open_leaf(rt, run, leaf, store, &mut file[from..end], progress)
}

// The openings after those that are finished, which stand in the file already, behind its head.
pub fn open_rest<R: Files<File = File> + Clock>(
    rt: &R,
    seal: &mut Seal,
    root: [u8; 32],
    store: &[u8],
    file: &mut [u8],
    proof: &[u8],
    progress: &mut Progress<'_>,
)
    requires writable { Writable seal.old.run.edition seal.old.run.depth seal.old.run.memory seal.old.count (length store.now)
        (length file.old) }
    requires finished { Finished seal.old }
    ensures { root ≡ root_of seal.old.run.edition seal.old.run.statement seal.old.run.depth
        → HoldsLabels seal.old.run.edition seal.old.run.statement seal.old.run.depth seal.old.run.memory store.now
        → file.old ≡ laid seal.old.run.edition seal.old.run.statement seal.old.run.depth seal.old.count seal.old.done
        ++ drop (laid_size seal.old.run.depth seal.old.count seal.old.done) file.old
        → file.new ≡ tree_file seal.old.run.edition seal.old.run.statement seal.old.run.depth seal.old.count
        ++ drop (file_size seal.old.run.depth seal.old.count) file.old }
{
    // Not a `for`: the count is the seal's own, which the checkpoint says.
    while seal.done < seal.count {
        open_next(rt, seal, root, store, file, progress);
        seal.done += 1;
        save_opening(rt, seal, store, file, proof, progress);
    }
}
