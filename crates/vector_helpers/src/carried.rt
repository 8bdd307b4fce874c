// Runs and openings carried to their end by calls with one budget, for the programs of the gate.
ghost use Rattle.std.specs.Prelude.{◌≡◌, ◌%◌, ◌^◌, replicate};
ghost use Rattle.machine.specs.Calls.{after_calls, labels_over};
ghost use Rattle.sha256.specs.Portions.{digest_answer, finish_digest, updated_all};
ghost use Rattle.run.specs.Steps.{stamped, advanced};
ghost use Rattle.opening.specs.Steps as opens;
ghost use Rattle.opening.specs.Names.{open_of};
ghost use Rattle.vector_helpers.specs.Whole.{run_parts};

use crate::show::{IsSame, named_hex};
use base::big_endian;
use labelling::Work;
use opening::Opening;
use run::Run;
use sha256::{Hash, digest};
use std::io::Stdout;

// What a call did that was refused.
pub const NO_WORK: Work = Work {
    labels: 0,
    blocks: 0,
};

// The digest; 32 zero bytes if there are too many bytes to hash.
#[tactic(auto, unfolding(sha256::specs::Portions::digest_row, sha256::specs::Portions::digest_answer))]
pub fn hash(bytes: &[u8]) -> [u8; 32]
    ensures { result ≡ digest_answer bytes.now }
{
    match digest(bytes) {
        Ok(hashed) => hashed.digest,
        Err(_) => [0u8; 32],
    }
}

// Writes a text, and the digest after it.
pub fn named_digest(to: Stdout, name: &[u8], bytes: &[u8]) {
    named_hex(to, name, &hash(bytes));
}

// Writes whether the bytes still have the digest that they had before.
pub fn flag_digest(to: Stdout, before: [u8; 32], bytes: &[u8]) {
    let _ = print!(to; " {}", IsSame(before == hash(bytes)));
}

// Writes the digest with a blank before it.
pub fn digest_column(to: Stdout, bytes: &[u8]) {
    named_digest(to, b" ", bytes);
}

// The digest of all that a hash has taken; 32 zero bytes if that is too many bytes.
#[tactic(auto, unfolding(sha256::specs::Portions::finish_row, sha256::specs::Portions::finish_digest))]
pub fn digest_of(state: &Hash) -> [u8; 32]
    ensures { result ≡ finish_digest state.now }
{
    match state.finish() {
        Ok(hashed) => hashed.digest,
        Err(_) => [0u8; 32],
    }
}

// Takes a whole run into a hash: statement, edition, depth, memory level, labels made, and places. A part that would be too many bytes is left out.
#[tactic(auto, unfolding(sha256::specs::Portions::updated_all))]
pub fn hash_run(state: &mut Hash, run: &Run)
    ensures { state.new ≡ updated_all state.old (run_parts run.now) }
{
    let _ = state.update(&run.statement);
    let _ = state.update(&big_endian(run.edition));
    let _ = state.update(&big_endian(run.depth));
    let _ = state.update(&big_endian(run.memory));
    let _ = state.update(&big_endian(run.made));
    let _ = state.update(&run.held);
}

// So many calls with one budget; those that would find no label left are not made.
pub fn run_to_end(run: &mut Run, calls: u64, budget: u64, store: &mut [u8])
    ensures run_after { run.new ≡ (after_calls advanced (stamped run.old store.old) (replicate calls budget)).run }
    ensures store_after { store.new ≡ (after_calls advanced (stamped run.old store.old) (replicate calls budget)).store }
{
    for _call in 0..calls {
        let work = run.advance(budget, store).unwrap_or(NO_WORK);
        if work.labels == 0 {
            return;
        }
    }
}

// So many calls with one budget; those that would find no label left are not made. How many labels they report, in 64 bits.
pub fn open_to_end(
    opening: &mut Opening,
    calls: u64,
    budget: u64,
    store: &[u8],
    out: &mut [u8],
) -> u64
    ensures value { result
        ≡ labels_over (opens.advanced store.now) (opens.labels_in store.now) (open_of opening.old out.old)
        (replicate calls budget) % 2 ^ 64 }
    ensures opening_after { opening.new
        ≡ (after_calls (opens.advanced store.now) (open_of opening.old out.old) (replicate calls budget)).opening }
    ensures out_after { out.new ≡ (after_calls (opens.advanced store.now) (open_of opening.old out.old) (replicate calls budget)).out }
{
    let mut labels: u64 = 0;
    for _call in 0..calls {
        let work = opening.advance(budget, store, out).unwrap_or(NO_WORK);
        if work.labels == 0 {
            return labels;
        }
        labels = labels.wrapping_add(work.labels);
    }
    labels
}
