// A checkpoint as bytes: what the order was, the store and the run's record, with a SHA-256 over all of it; and any bytes read as one.
#![tactic(auto)]

mod openings; // openings.rt: the finished openings behind a checkpoint
mod reading; // reading.rt: any bytes read as a checkpoint
mod writing; // writing.rt: the checkpoint written

ghost use Rattle.std.specs.Prelude.{◌≡◌, ◌≤◌, ◌<◌, length};
ghost use Rattle.base.specs.Limits.{max_memory, max_store};
ghost use Rattle.sha256.specs.Digest.{digest};
ghost use Rattle.tree.specs.Store.{store_size};

use base::{MAX_RECORD, MAX_STORE};
pub use openings::right_openings;
pub use reading::read_checkpoint;
use run::Run;
pub use writing::write_checkpoint;

// The bytes before the store, and those of the longest checkpoint: specs/Layout.antt.
pub const HEAD_SIZE: usize = 20;

pub const MAX_CHECKPOINT: usize = HEAD_SIZE + MAX_STORE + MAX_RECORD + 32;

// Why bytes are not read: no checkpoint at all; one that is cut off or changed; or one whose SHA-256 is right and which is of no run.
#[derive(Clone, Copy, Debug, PartialEq, Eq)]
pub enum Fault {
    Foreign,
    Damaged,
    Impossible,
}

// What a checkpoint says: the order's challenges, the run, and how many bytes the checkpoint has.
#[derive(Clone, Copy, Debug, PartialEq, Eq)]
pub struct Found {
    pub count: u64,
    pub size: usize,
    pub run: Run,
}

// The bytes of a store.
fn kept_size(memory: u64) -> usize
    requires { memory ≤ max_memory }
    ensures { (result ≡ store_size memory) × (result ≤ max_store) }
{
    run::store_size(memory) as usize
}

// The SHA-256 of bytes that are not too many.
fn digest_of(bytes: &[u8]) -> [u8; 32]
    requires { length bytes.now < 4294967296 }
    ensures { result ≡ digest bytes.now }
{
    sha256::digest(bytes).unwrap().digest
}
