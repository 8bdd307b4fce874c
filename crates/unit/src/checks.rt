// W-208's 21, then each run as when continued, over what is left of the slice; and what the labels of a call need to know of the runs.
ghost use Rattle.std.specs.Prelude.{◌≡◌, ◌⊎◌, ◌≤◌, IfOk};
ghost use Rattle.base.specs.Limits.{max_runs};
ghost use Rattle.base.specs.Number.{outcome_number};
ghost use Rattle.unit.specs.Runs.{left_of, sum_of};
ghost use Rattle.unit.specs.Rows.{runs_row, named_row};
ghost use Rattle.unit.specs.Plans.{Planned};

use crate::StampingUnit;
use base::{MAX_RUNS, Refusal, beyond};
use run::{nodes, store_size};

// Of one run: where its store begins in the slice, and the labels that remain of it.
#[derive(Clone, Copy, Debug, PartialEq, Eq)]
pub struct Lane {
    pub from: usize,
    pub left: u64,
}

// The lanes of the runs that were looked over, and the labels that remain of all these.
#[derive(Clone, Copy, Debug, PartialEq, Eq)]
pub struct Plan {
    pub lanes: [Lane; MAX_RUNS],
    pub all: u64,
}

impl StampingUnit {
    // Runs 1 to `end`.
    fn look_over(&self, end: u64, store: usize) -> Result<Plan, Refusal>
        requires { end ≤ max_runs }
        ensures outcome_value { outcome_number result ≡ runs_row self.now.runs 1 end store }
        ensures planned { IfOk result (λ plan. Planned self.now.runs end plan.lanes × (plan.all ≡ sum_of left_of self.now.runs end)) }
    {
        let mut lanes = [Lane { from: 0, left: 0 }; MAX_RUNS];
        let mut all = 0;
        let mut at = 0;
        for i in 0..end as usize {
            let run = &self.runs[i];
            run.may_continue(store - at)?;
            let left = nodes(run.depth) - run.made;
            lanes[i] = Lane { from: at, left };
            all += left;
            at += store_size(run.memory) as usize;
        }
        Ok(Plan { lanes, all })
    }

    // A run is named, and runs 1 to `end` are looked over: all of them, or those up to the named one.
    pub(crate) fn plan_runs(&self, name: u64, end: u64, store: usize) -> Result<Plan, Refusal>
        requires { (end ≡ self.now.count) ⊎ (end ≡ name) }
        ensures outcome_value { outcome_number result ≡ named_row self.now name end store }
        ensures planned { IfOk result (λ plan. Planned self.now.runs end plan.lanes × (plan.all ≡ sum_of left_of self.now.runs end)) }
    {
        // Two tests and no `||`: the answers cite the first of them by its name.
        if beyond(MAX_RUNS as u64, self.count) {
            return Err(Refusal::Runs);
        }
        if beyond(self.count, name) {
            return Err(Refusal::Runs);
        }
        self.look_over(end, store)
    }
}
