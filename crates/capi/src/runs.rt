// Runs.
ghost use Rattle.std.specs.Prelude.{◌≡◌, length};
ghost use Rattle.run.specs.Rows.{start_row, continue_row};
ghost use Rattle.run.specs.Steps.{started, stamped, labels_in, blocks_in, advanced};
ghost use Rattle.run_record.specs.Layout.{record_row, record_size, record_written};
ghost use Rattle.run_record.specs.Reading.{resume_row, resumed};

use base::{HELD_SIZE, outcome_number};
use labelling::Work;
use run::Run;

// What stands beside a refusal.
pub const NO_WORK: Work = Work {
    labels: 0,
    blocks: 0,
};

const NO_RUN: Run = Run {
    statement: [0; 32],
    edition: 0,
    depth: 0,
    memory: 0,
    made: 0,
    held: [0; HELD_SIZE],
};

#[repr(C)]
#[derive(Clone, Copy)]
pub struct RunStarted {
    pub refusal: u64,
    pub run: Run,
}

#[repr(C)]
#[derive(Clone, Copy)]
pub struct RunAdvanced {
    pub refusal: u64,
    pub labels: u64,
    pub blocks: u64,
    pub run: Run,
}

#[repr(C)]
#[derive(Clone, Copy)]
pub struct RunRecorded {
    pub refusal: u64,
    pub size: usize,
}

// A new run, or the refusal beside an all-zero one.
pub fn mastdock_run_start(statement: &[u8; 32], depth: u64, memory: u64, store: &[u8]) -> RunStarted
    ensures refusal_value { result.refusal ≡ start_row depth memory (length store.now) }
    ensures run_value { result.run ≡ started statement.now depth memory (length store.now) }
{
    let started = Run::start(*statement, depth, memory, store);
    RunStarted {
        refusal: outcome_number(started),
        run: started.unwrap_or(NO_RUN),
    }
}

// Labels the smaller of the budget and what remains; `blocks` are those of the labels made in this call.
pub fn mastdock_run_advance(run: Run, budget: u64, store: &mut [u8]) -> RunAdvanced
    ensures refusal_value { result.refusal ≡ continue_row run (length store.old) }
    ensures labels_value { result.labels ≡ labels_in (stamped run store.old) budget }
    ensures blocks_value { result.blocks ≡ blocks_in (stamped run store.old) budget }
    ensures run_value { result.run ≡ (advanced (stamped run store.old) budget).run }
    ensures store_after { store.new ≡ (advanced (stamped run store.old) budget).store }
{
    let mut next = run;
    let advanced = next.advance(budget, store);
    let work = advanced.unwrap_or(NO_WORK);
    RunAdvanced {
        refusal: outcome_number(advanced),
        labels: work.labels,
        blocks: work.blocks,
        run: next,
    }
}

// Writes a run's record over the front of `out`. How many bytes were written, or the refusal beside 0.
pub fn mastdock_run_record(run: Run, out: &mut [u8]) -> RunRecorded
    ensures refusal_value { result.refusal ≡ record_row run (length out.old) }
    ensures size_value { result.size ≡ record_size run (length out.old) }
    ensures out_after { out.new ≡ record_written run out.old }
{
    let written = run_record::write_record(run, out);
    RunRecorded {
        refusal: outcome_number(written),
        size: written.unwrap_or(0),
    }
}

// The run that the bytes are the record of, or the refusal beside an all-zero one.
pub fn mastdock_run_resume(bytes: &[u8]) -> RunStarted
    ensures refusal_value { result.refusal ≡ resume_row bytes.now }
    ensures run_value { result.run ≡ resumed bytes.now }
{
    let read = run_record::read_record(bytes);
    RunStarted {
        refusal: outcome_number(read),
        run: read.unwrap_or(NO_RUN),
    }
}
