// The opening of a leaf in lent memory: started from a store, then labelled anew below level m by calls with a budget.
#![tactic(auto)]

mod checks; // checks.rt: what may be started and continued
mod labels; // labels.rt: one step, and several

ghost use Rattle.std.specs.Prelude.{◌≡◌, ◌*◌, ◌≤◌, length, IfOk};
ghost use Rattle.base.specs.Number.{outcome_number};
ghost use Rattle.labelling.specs.Blocks.{most_blocks};
ghost use Rattle.opening.specs.Rows.{open_row, reopen_row};
ghost use Rattle.opening.specs.Names.{open_of};
ghost use Rattle.opening.specs.Steps.{started, started_out, labels_in, blocks_in, advanced};

use base::{HELD_SIZE, Refusal};
use checks::may_start;
pub use checks::{nodes_anew, not_possible};
use labelling::{Tree, Work};
use opening_places::copy_held;

// Document 01's opening: a run's state with the leaf besides; count and held labels are those of the nodes labelled anew.
#[repr(C)]
#[derive(Clone, Copy, Debug, PartialEq, Eq)]
pub struct Opening {
    pub statement: [u8; 32],
    pub edition: u64,
    pub depth: u64,
    pub memory: u64,
    pub leaf: u64,
    pub made: u64,
    pub held: [u8; HELD_SIZE],
}

impl Opening {
    // Copies what the store holds of the opening to the output, and writes no other byte.
    pub fn start(
        tree: Tree,
        memory: u64,
        leaf: u64,
        store: &[u8],
        out: &mut [u8],
    ) -> Result<Opening, Refusal>
        ensures outcome_value { outcome_number result ≡ open_row tree.edition tree.depth memory leaf (length store.now) (length out.old) }
        ensures opening_value { IfOk result
            (λ o. o ≡ started tree.edition tree.statement tree.depth memory leaf (length store.now) (length out.old)) }
        ensures out_after { out.new ≡ started_out tree.edition tree.depth memory leaf store.now out.old }
    {
        let Tree {
            statement,
            edition,
            depth,
        } = tree;
        may_start(edition, depth, memory, leaf, store.len(), out.len())?;
        copy_held(depth, memory, leaf, store, out);
        Ok(Opening {
            statement,
            edition,
            depth,
            memory,
            leaf,
            made: 0,
            held: [0u8; HELD_SIZE],
        })
    }

    // Labels exactly the smaller of the budget and what remains, and puts each label of the opening in its place. The blocks are those of
    // these labels.
    pub fn advance(&mut self, budget: u64, store: &[u8], out: &mut [u8]) -> Result<Work, Refusal>
        ensures outcome_value { outcome_number result ≡ reopen_row self.old (length store.now) (length out.old) }
        ensures work_value { IfOk result (λ w. (w.labels ≡ labels_in store.now (open_of self.old out.old) budget)
            × (w.blocks ≡ blocks_in store.now (open_of self.old out.old) budget) × (w.blocks ≤ most_blocks * w.labels)) }
        ensures opening_after { self.new ≡ (advanced store.now (open_of self.old out.old) budget).opening }
        ensures out_after { out.new ≡ (advanced store.now (open_of self.old out.old) budget).out }
    {
        self.may_continue(store.len(), out.len())?;
        let labels = budget.min(nodes_anew(self.depth, self.memory) - self.made);
        let blocks = self.label_many(labels, store, out);
        Ok(Work { labels, blocks })
    }
}
