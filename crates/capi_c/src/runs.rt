// Runs.
ghost use Rattle.std.specs.Prelude.{◌≡◌, length};
ghost use Rattle.run.specs.Rows.{start_row, continue_row};
ghost use Rattle.run.specs.Steps.{started, stamped, labels_in, blocks_in, advanced};
ghost use Rattle.run_record.specs.Layout.{record_row, record_size, record_written};
ghost use Rattle.run_record.specs.Reading.{resume_row, resumed};

use capi::{RunAdvanced, RunRecorded, RunStarted};
use run::Run;

// A new run, or the refusal beside an all-zero one.
#[unsafe(no_mangle)]
pub extern "C" fn mastdock_run_start(
    statement: &[u8; 32],
    depth: u64,
    memory: u64,
    store: &[u8],
) -> RunStarted
    ensures refusal_value { result.refusal ≡ start_row depth memory (length store.now) }
    ensures run_value { result.run ≡ started statement.now depth memory (length store.now) }
{
    capi::mastdock_run_start(statement, depth, memory, store)
}

// Labels the smaller of the budget and what remains; `blocks` are those of the labels made in this call.
#[unsafe(no_mangle)]
pub extern "C" fn mastdock_run_advance(run: Run, budget: u64, store: &mut [u8]) -> RunAdvanced
    ensures refusal_value { result.refusal ≡ continue_row run (length store.old) }
    ensures labels_value { result.labels ≡ labels_in (stamped run store.old) budget }
    ensures blocks_value { result.blocks ≡ blocks_in (stamped run store.old) budget }
    ensures run_value { result.run ≡ (advanced (stamped run store.old) budget).run }
    ensures store_after { store.new ≡ (advanced (stamped run store.old) budget).store }
{
    capi::mastdock_run_advance(run, budget, store)
}

// Writes a run's record over the front of `out`. How many bytes were written, or the refusal beside 0.
#[unsafe(no_mangle)]
pub extern "C" fn mastdock_run_record(run: Run, out: &mut [u8]) -> RunRecorded
    ensures refusal_value { result.refusal ≡ record_row run (length out.old) }
    ensures size_value { result.size ≡ record_size run (length out.old) }
    ensures out_after { out.new ≡ record_written run out.old }
{
    capi::mastdock_run_record(run, out)
}

// The run that the bytes are the record of, or the refusal beside an all-zero one.
#[unsafe(no_mangle)]
pub extern "C" fn mastdock_run_resume(bytes: &[u8]) -> RunStarted
    ensures refusal_value { result.refusal ≡ resume_row bytes.now }
    ensures run_value { result.run ≡ resumed bytes.now }
{
    capi::mastdock_run_resume(bytes)
}
