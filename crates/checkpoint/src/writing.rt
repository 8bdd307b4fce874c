// A checkpoint written.
ghost use Rattle.std.specs.Prelude.{◌≡◌, ◌++◌, ◌+◌, ◌≤◌, ◌<◌, length, take, false};
ghost use Rattle.std.specs.Result.{result_unwrap_or};
ghost use Rattle.base.specs.Bytes.{written};
ghost use Rattle.base.specs.Number.{outcome_number};
ghost use Rattle.base.specs.Limits.{max_record};
ghost use Rattle.run_record.specs.Layout.{record_of, no_such_run};
ghost use Rattle.sha256.specs.Digest.{digest};
ghost use Rattle.checkpoint.specs.Layout.{order_row, order_head, checkpoint_row, checkpoint_size, checkpoint_written};

use crate::{HEAD_SIZE, digest_of, kept_size};
use base::{MAX_CHALLENGES, MAX_RECORD, Refusal, beyond, put};
use run::{Run, not_possible, store_short};
use run_record::write_record;

// The mark, the order's numbers and the record's length.
fn order_head(depth: u64, memory: u64, count: u64, size: usize) -> [u8; HEAD_SIZE]
    requires { (depth < 256) × (memory < 256) × (count < 256) × (size < 65536) }
    ensures { result ≡ order_head depth memory count size }
{
    let mut head = [0u8; HEAD_SIZE];
    put(&mut head, 0, b"mastdock run 1\n");
    head[15] = depth as u8;
    head[16] = memory as u8;
    head[17] = count as u8;
    head[18] = (size / 256) as u8;
    head[19] = (size % 256) as u8;
    head
}

// Head, store and record over the front of `out`, and the SHA-256 behind them. Its callers know that they fit.
fn put_parts(head: &[u8], store: &[u8], laid: &[u8], out: &mut [u8])
    requires laid_in_bounds { length head.now + length store.now + length laid.now + 32 ≤ length out.old }
    requires laid_len_bound { length head.now + length store.now + length laid.now < 4294967296 }
    ensures { out.new ≡ written out.old 0 ((head.now ++ store.now ++ laid.now)
        ++ digest (head.now ++ store.now ++ laid.now)) }
{
    let middle = head.len();
    let last = middle + store.len();
    let end = last + laid.len();
    put(out, 0, head);
    put(out, middle, store);
    put(out, last, laid);
    let digest = digest_of(&out[..end]);
    put(out, end, &digest);
}

// Refuses a run, a store or a count of which no checkpoint is written.
#[tactic(auto, unfolding(crate::specs::Layout::order_row))]
fn check_order(run: &Run, count: u64, store: usize) -> Result<(), Refusal>
    ensures { outcome_number result ≡ order_row run.now count store }
{
    if not_possible(run.edition, run.depth, run.memory, run.made) {
        return Err(Refusal::State);
    }
    if store_short(run.memory, store) {
        return Err(Refusal::ShortStore);
    }
    if beyond(MAX_CHALLENGES, count) {
        return Err(Refusal::Count);
    }
    Ok(())
}

// The run's record, laid over the front of a room of its own. How many bytes it has.
fn lay_record(run: Run, room: &mut [u8]) -> usize
    requires possible { no_such_run run.edition run.depth run.memory run.made ≡ false }
    requires room { max_record ≤ length room.old }
    ensures size_value { (result ≡ length (record_of run)) × (result ≤ max_record) }
    ensures room_after { take result room.new ≡ record_of run }
{
    write_record(run, room).unwrap()
}

// Writes the checkpoint over the front of `out`, or nothing where it does not fit. How many bytes were written.
#[tactic(auto, unfolding(crate::specs::Layout::order_row, crate::specs::Layout::checkpoint_row, crate::specs::Layout::checkpoint_size, crate::specs::Layout::checkpoint_written))]
pub fn write_checkpoint(
    run: Run,
    count: u64,
    store: &[u8],
    out: &mut [u8],
) -> Result<usize, Refusal>
    ensures outcome_value { outcome_number result ≡ checkpoint_row run count (length store.now) (length out.old) }
    ensures size_value { result_unwrap_or result 0 ≡ checkpoint_size run count (length store.now) (length out.old) }
    ensures out_after { out.new ≡ checkpoint_written run count store.now out.old }
{
    check_order(&run, count, store.len())?;
    let mut record = [0u8; MAX_RECORD];
    let length = lay_record(run, &mut record);
    let kept = kept_size(run.memory);
    let size = HEAD_SIZE + kept + length + 32;
    if out.len() < size {
        return Err(Refusal::ShortOutput);
    }
    let head = order_head(run.depth, run.memory, count, length);
    put_parts(&head, &store[..kept], &record[..length], out);
    Ok(size)
}
