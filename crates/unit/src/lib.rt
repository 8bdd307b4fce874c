// W-208: one unit that carries several runs. Their labels are made in turn, their stores lie end to end in one lent slice.
#![tactic(auto)]

mod checks; // checks.rt: what may be served, and what is to be known of the runs
mod turns; // turns.rt: whose turn it is, and the labels of a call

ghost use Rattle.std.specs.Prelude.{◌≡◌, ◌*◌, ◌≤◌, length, is_some, IfOk};
ghost use Rattle.std.specs.Option.{option_map_or};
ghost use Rattle.base.specs.Row.{is_done};
ghost use Rattle.base.specs.Number.{outcome_number};
ghost use Rattle.labelling.specs.Blocks.{most_blocks};
ghost use Rattle.unit.specs.Rows.{unit_row, place_row};
ghost use Rattle.unit.specs.Turns.{carried, labels_in, blocks_in, advanced, place_offset, place_length};

use base::{MAX_RUNS, Refusal};
use labelling::Work;
use run::{Run, store_size};

// The first `count` of the runs are the unit's; they are named from 1, and `last` names the one served last.
#[repr(C)]
#[derive(Clone, Copy, Debug, PartialEq, Eq)]
pub struct StampingUnit {
    pub count: u64,
    pub last: u64,
    pub runs: [Run; MAX_RUNS],
}

// A part of the slice.
#[repr(C)]
#[derive(Clone, Copy, Debug, PartialEq, Eq)]
pub struct StorePlace {
    pub offset: usize,
    pub length: usize,
}

impl StampingUnit {
    // Makes exactly the smaller of the budget and all labels that remain, one at a time, in turn, beginning after the run served last.
    pub fn advance(&mut self, budget: u64, store: &mut [u8]) -> Result<Work, Refusal>
        ensures outcome_value { outcome_number result ≡ unit_row self.old (length store.old) }
        ensures work_value { IfOk result (λ w. (w.labels ≡ labels_in (carried self.old store.old) budget)
            × (w.blocks ≡ blocks_in (carried self.old store.old) budget) × (w.blocks ≤ most_blocks * w.labels)) }
        ensures unit_after { self.new ≡ (advanced (carried self.old store.old) budget).unit }
        ensures store_after { store.new ≡ (advanced (carried self.old store.old) budget).store }
    {
        let plan = self.plan_runs(self.last, self.count, store.len())?;
        let labels = budget.min(plan.all);
        let blocks = self.label_turns(plan.lanes, labels, store);
        Ok(Work { labels, blocks })
    }

    // Where run i's store lies in the slice, for an opening of it.
    pub fn store_place(&self, i: u64, store: &[u8]) -> Option<StorePlace>
        ensures there { is_some result ≡ is_done (place_row self.now i (length store.now)) }
        ensures offset_value { option_map_or (λ p. p.offset) result 0 ≡ place_offset self.now i (length store.now) }
        ensures length_value { option_map_or (λ p. p.length) result 0 ≡ place_length self.now i (length store.now) }
    {
        let plan = self.plan_runs(i, i, store.len()).ok()?;
        let at = (i - 1) as usize;
        Some(StorePlace {
            offset: plan.lanes[at].from,
            length: store_size(self.runs[at].memory) as usize,
        })
    }
}
