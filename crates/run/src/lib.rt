// A run in lent memory: labels are made one at a time, as many as a call's budget allows.
#![tactic(auto)]

mod checks; // checks.rt: what may be started and continued
mod labels; // labels.rt: one step, and several

ghost use Rattle.std.specs.Prelude.{◌≡◌, ◌*◌, ◌≤◌, length, IfOk};
ghost use Rattle.base.specs.Number.{outcome_number};
ghost use Rattle.labelling.specs.Blocks.{most_blocks};
ghost use Rattle.run.specs.Rows.{start_row, continue_row};
ghost use Rattle.run.specs.Steps.{new_run, started, stamped, labels_in, blocks_in, advanced};

use base::{HELD_SIZE, NEW_EDITION, Refusal};
pub use checks::{check_store, may_start, nodes, not_possible, outside, store_short, store_size};
use labelling::Work;

// Document 01's run: statement, edition (W-206), n, m, the number of labels made, and 41 places of 32 bytes for held labels.
#[repr(C)]
#[derive(Clone, Copy, Debug, PartialEq, Eq)]
pub struct Run {
    pub statement: [u8; 32],
    pub edition: u64,
    pub depth: u64,
    pub memory: u64,
    pub made: u64,
    pub held: [u8; HELD_SIZE],
}

// A run with no label made.
pub fn new_run(edition: u64, statement: [u8; 32], depth: u64, memory: u64) -> Run
    ensures { result ≡ new_run edition statement depth memory }
{
    Run {
        statement,
        edition,
        depth,
        memory,
        made: 0,
        held: [0u8; HELD_SIZE],
    }
}

impl Run {
    // A new run, for a store of this length, which it neither reads nor writes.
    #[tactic(auto, unfolding(crate::specs::Steps::started))]
    pub fn start(statement: [u8; 32], depth: u64, memory: u64, store: &[u8]) -> Result<Run, Refusal>
        ensures outcome_value { outcome_number result ≡ start_row depth memory (length store.now) }
        ensures run_value { IfOk result (λ run. run ≡ started statement depth memory (length store.now)) }
    {
        may_start(depth, memory, store.len())?;
        Ok(new_run(NEW_EDITION, statement, depth, memory))
    }

    // Labels exactly the smaller of the budget and what remains; the blocks are those of these labels.
    pub fn advance(&mut self, budget: u64, store: &mut [u8]) -> Result<Work, Refusal>
        ensures outcome_value { outcome_number result ≡ continue_row self.old (length store.old) }
        ensures work_value { IfOk result (λ w. (w.labels ≡ labels_in (stamped self.old store.old) budget)
            × (w.blocks ≡ blocks_in (stamped self.old store.old) budget) × (w.blocks ≤ most_blocks * w.labels)) }
        ensures run_after { self.new ≡ (advanced (stamped self.old store.old) budget).run }
        ensures store_after { store.new ≡ (advanced (stamped self.old store.old) budget).store }
    {
        self.may_continue(store.len())?;
        let labels = budget.min(nodes(self.depth) - self.made);
        let blocks = self.label_many(labels, store);
        Ok(Work { labels, blocks })
    }

    // One label.
    pub fn step(&mut self, store: &mut [u8]) -> Result<Work, Refusal>
        ensures outcome_value { outcome_number result ≡ continue_row self.old (length store.old) }
        ensures work_value { IfOk result (λ w. (w.labels ≡ labels_in (stamped self.old store.old) 1)
            × (w.blocks ≡ blocks_in (stamped self.old store.old) 1) × (w.blocks ≤ most_blocks * w.labels)) }
        ensures run_after { self.new ≡ (advanced (stamped self.old store.old) 1).run }
        ensures store_after { store.new ≡ (advanced (stamped self.old store.old) 1).store }
    {
        self.advance(1, store)
    }
}
