// Any bytes read as a checkpoint.
ghost use Rattle.std.specs.Prelude.{◌≡◌, ◌+◌, ◌≤◌, ◌<◌, length, IfOk};
ghost use Rattle.run_record.specs.Reading.{resumed};
ghost use Rattle.checkpoint.specs.Reading.{unmarked, no_order, altered, record_fault, fault_number};
ghost use Rattle.checkpoint.specs.Reading.{fault_of, IsFoundIn};

use crate::{Fault, Found, HEAD_SIZE, digest_of, kept_size};
use base::{MAX_CHALLENGES, MAX_DEPTH, beyond, memory_over, same};
use run::Run;
use run_record::read_record;

// Whether the bytes do not begin as a checkpoint does.
fn is_unmarked(bytes: &[u8]) -> bool
    ensures { result ≡ unmarked bytes.now }
{
    bytes.len() < HEAD_SIZE || !same(&bytes[..15], b"mastdock run 1\n")
}

// Whether no order has these numbers.
fn is_no_order(depth: u64, memory: u64, count: u64) -> bool
    ensures { result ≡ no_order depth memory count }
{
    beyond(MAX_DEPTH, depth) || memory_over(depth, memory) || beyond(MAX_CHALLENGES, count)
}

// Whether the SHA-256 from a place on is not that of all before it.
fn is_altered(bytes: &[u8], end: usize) -> bool
    requires { (end + 32 ≤ length bytes.now) × (end < 4294967296) }
    ensures { result ≡ altered bytes.now end }
{
    !same(&bytes[end..end + 32], &digest_of(&bytes[..end]))
}

// The run of a record, which the order's numbers must fit.
#[tactic(auto, unfolding(crate::specs::Reading::record_fault))]
fn run_in(record: &[u8], depth: u64, memory: u64) -> Result<Run, Fault>
    ensures fault_value { fault_number result ≡ record_fault record.now depth memory }
    ensures run_value { IfOk result (λ run. run ≡ resumed record.now) }
{
    match read_record(record) {
        Ok(run) if run.depth == depth && run.memory == memory => Ok(run),
        _ => Err(Fault::Impossible),
    }
}

// Reads a checkpoint at the front of the bytes.
#[tactic(auto, using(crate::proofs::ReadingLaws::reading_laws), unfolding(crate::specs::Reading::record_fault, crate::specs::Reading::fault_of, crate::specs::Reading::run_found, crate::specs::Reading::count_found, crate::specs::Reading::size_found))]
pub fn read_checkpoint(bytes: &[u8]) -> Result<Found, Fault>
    ensures fault_value { fault_number result ≡ fault_of bytes.now }
    ensures found_value { IfOk result (IsFoundIn bytes.now) }
{
    if is_unmarked(bytes) {
        return Err(Fault::Foreign);
    }
    let depth = u64::from(bytes[15]);
    let memory = u64::from(bytes[16]);
    let count = u64::from(bytes[17]);
    if is_no_order(depth, memory, count) {
        return Err(Fault::Damaged);
    }
    let length = usize::from(u16::from_be_bytes([bytes[18], bytes[19]]));
    let from = HEAD_SIZE + kept_size(memory);
    let end = from + length;
    if bytes.len() < end + 32 || is_altered(bytes, end) {
        return Err(Fault::Damaged);
    }
    let run = run_in(&bytes[from..end], depth, memory)?;
    Ok(Found {
        count,
        size: end + 32,
        run,
    })
}
