// Whose turn it is, and the labels of a call, one at a time.
ghost use Rattle.std.specs.Prelude.{◌≡◌, ◌*◌, ◌≤◌, ltb, length};
ghost use Rattle.base.specs.Limits.{max_runs};
ghost use Rattle.labelling.specs.Blocks.{most_blocks};
ghost use Rattle.unit.specs.Runs.{left_of, sum_of};
ghost use Rattle.unit.specs.Rows.{unit_row};
ghost use Rattle.unit.specs.Turns.{carried, following, first_after, turns, blocks_over};
ghost use Rattle.unit.specs.Plans.{Planned, lane_at};

use crate::StampingUnit;
use crate::checks::Lane;
use base::MAX_RUNS;
use run::store_size;

// The run after run i.
fn after(count: u64, i: u64) -> u64
    requires { count ≤ max_runs }
    ensures { result ≡ following count i }
{
    if i < count { i + 1 } else { 1 }
}

// The first run after the one served last, in turn, of which labels remain. A number and no Option: `first_after` has 0 for none, and its
// caller knows that there is one.
fn next_run(lanes: [Lane; MAX_RUNS], count: u64, last: u64) -> u64
    requires { (count ≤ max_runs) × (1 ≤ last) × (last ≤ count) }
    ensures { result ≡ first_after (λ i. ltb 0 (lane_at lanes i).left) count count last }
{
    let mut i = last;
    for _ in 0..count {
        i = after(count, i);
        if 0 < lanes[(i - 1) as usize].left {
            return i;
        }
    }
    0
}

impl StampingUnit {
    // So many labels, and their blocks.
    pub(crate) fn label_turns(
        &mut self,
        lanes: [Lane; MAX_RUNS],
        labels: u64,
        store: &mut [u8],
    ) -> u64
        requires store_value { (unit_row self.old (length store.old) ≡ 0) × Planned self.old.runs self.old.count lanes }
        requires labels_bound { labels ≤ sum_of left_of self.old.runs self.old.count }
        ensures unit_after { self.new ≡ (turns labels (carried self.old store.old)).unit }
        ensures store_after { store.new ≡ (turns labels (carried self.old store.old)).store }
        ensures blocks_value { (result ≡ blocks_over labels (carried self.old store.old)) × (result ≤ most_blocks * labels) }
    {
        let mut lanes = lanes;
        let mut blocks = 0;
        for _ in 0..labels {
            let i = next_run(lanes, self.count, self.last);
            let at = (i - 1) as usize;
            let lane = lanes[at];
            let run = &mut self.runs[at];
            let end = lane.from + store_size(run.memory) as usize;
            blocks += run.label_one(&mut store[lane.from..end]);
            lanes[at] = Lane {
                from: lane.from,
                left: lane.left - 1,
            };
            self.last = i;
        }
        blocks
    }
}
