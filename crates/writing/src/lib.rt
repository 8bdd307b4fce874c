// The openings of a proof file, written in calls with a budget.
#![tactic(auto)]

mod checks; // checks.rt: what may be started and continued
mod labels; // labels.rt: labels made opening after opening
mod parts; // parts.rt: an opening in its part of the file

ghost use Rattle.std.specs.Prelude.{◌≡◌, ◌*◌, ◌≤◌, length, IfOk};
ghost use Rattle.base.specs.Number.{outcome_number};
ghost use Rattle.labelling.specs.Blocks.{most_blocks};
ghost use Rattle.writing.specs.Rows.{write_row, rewrite_row};
ghost use Rattle.writing.specs.Possible.{written_of};
ghost use Rattle.writing.specs.Steps.{started, labels_in, blocks_in, advanced};

use base::Refusal;
use checks::may_start;
use labelling::{Tree, Work};
use opening::Opening;
use parts::Order;

// A file under writing: its root and count, the number of the opening under way, from 1, and that opening.
#[repr(C)]
#[derive(Clone, Copy, Debug, PartialEq, Eq)]
pub struct Writing {
    pub root: [u8; 32],
    pub count: u64,
    pub number: u64,
    pub opening: Opening,
}

impl Writing {
    // Writes the head, and copies what the store holds of each opening that is begun.
    pub fn start(
        tree: Tree,
        root: [u8; 32],
        memory: u64,
        count: u64,
        store: &[u8],
        file: &mut [u8],
    ) -> Result<Writing, Refusal>
        ensures outcome_value { outcome_number result ≡ write_row tree.edition tree.depth memory count (length store.now) (length file.old) }
        ensures writing_value { IfOk result
            (λ w. w ≡ (started tree.edition tree.statement root tree.depth memory count store.now file.old).writing) }
        ensures file_after { file.new ≡ (started tree.edition tree.statement root tree.depth memory count store.now file.old).file }
    {
        may_start(&tree, memory, count, store.len(), file.len())?;
        let order = Order {
            tree,
            root,
            memory,
            count,
        };
        Ok(order.write_first(store, file))
    }

    // Makes exactly the smaller of the budget and the labels that remain, and begins the next opening when one is done. The blocks are those
    // of these labels, without the challenges'.
    pub fn advance(&mut self, budget: u64, store: &[u8], file: &mut [u8]) -> Result<Work, Refusal>
        ensures outcome_value { outcome_number result ≡ rewrite_row self.old (length store.now) (length file.old) }
        ensures work_value { IfOk result (λ w. (w.labels ≡ labels_in store.now (written_of self.old file.old) budget)
            × (w.blocks ≡ blocks_in store.now (written_of self.old file.old) budget) × (w.blocks ≤ most_blocks * w.labels)) }
        ensures writing_after { self.new ≡ (advanced store.now (written_of self.old file.old) budget).writing }
        ensures file_after { file.new ≡ (advanced store.now (written_of self.old file.old) budget).file }
    {
        self.may_continue(store.len(), file.len())?;
        let labels = budget.min(self.labels_left());
        let blocks = self.label_many(labels, store, file);
        Ok(Work { labels, blocks })
    }
}
