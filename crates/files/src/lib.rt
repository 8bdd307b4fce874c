// Reports, proofs and checkpoints on the disk: each written under a temporary name, synced, and renamed only when it is whole. What cannot
// be done is told by one line on a stream.
#![tactic(auto)]

ghost use Rattle.std.specs.Prelude.{◌≤◌};

mod folder; // folder.rt: the folder of a file, synced
mod keeping; // keeping.rt: the proof written, read back and renamed
mod lock; // lock.rt: PROOF.lock, so that one run at a time works on a proof
mod names; // names.rt: the names of the files beside a proof
mod part; // part.rt: PROOF.part, the proof's room
mod proof; // proof.rt: a proof file in memory
mod report; // report.rt: the report's statement, hashed in portions
mod saved; // saved.rt: PROOF.run, the checkpoint

pub use keeping::keep_proof;
pub use lock::{NotHeld, hold, release};
pub use part::{empty_file, is_free, make_part};
pub use proof::load_proof;
pub use report::{Stated, is_apart, state_report};
pub use saved::{load_run, may_save, remove_run, save, save_opening, say_of_run};

// The most bytes of a path.
const MAX_PATH: usize = 4095;

// A path: the first `length` bytes of its text. It is no Vec: a proof is kept also where memory has run out.
#[derive(Clone, Copy)]
struct Name {
    text: [u8; MAX_PATH],
    length: usize,
    ghost in_room: { length ≤ 4095 },
}
