// What may be started and continued: the rows of writing a file, for every number.
ghost use Rattle.std.specs.Prelude.{◌≡◌};
ghost use Rattle.base.specs.Number.{outcome_number};
ghost use Rattle.writing.specs.Rows.{write_row, rewrite_row};
ghost use Rattle.writing.specs.Possible.{state_outside};

use crate::Writing;
use base::{MAX_CHALLENGES, MAX_EDITION, Refusal, beyond};
use file_head::{file_size, may_write};
use labelling::Tree;
use opening::not_possible;
use run::check_store;

// Starting: 12, then as a run's start, then as the head.
pub fn may_start(
    tree: &Tree,
    memory: u64,
    count: u64,
    store: usize,
    file: usize,
) -> Result<(), Refusal>
    ensures { outcome_number result ≡ write_row tree.now.edition tree.now.depth memory count store file }
{
    if beyond(MAX_EDITION, tree.edition) {
        return Err(Refusal::Edition);
    }
    run::may_start(tree.depth, memory, store)?;
    may_write(tree.edition, tree.depth, count, file)
}

impl Writing {
    // Whether no start or call leaves a writing with these numbers.
    fn is_outside(&self) -> bool
        ensures { result ≡ state_outside self.now }
    {
        let opening = &self.opening;
        not_possible(
            opening.edition,
            opening.depth,
            opening.memory,
            opening.made,
            opening.leaf,
        ) || beyond(MAX_CHALLENGES, self.count)
            || beyond(self.count, self.number)
            || self.may_follow()
    }

    // Continuing: 4, 3, 7.
    #[tactic(auto, unfolding(crate::specs::Rows::rewrite_row))]
    pub(crate) fn may_continue(&self, store: usize, file: usize) -> Result<(), Refusal>
        ensures { outcome_number result ≡ rewrite_row self.now store file }
    {
        if self.is_outside() {
            return Err(Refusal::State);
        }
        check_store(self.opening.memory, store)?;
        if file < file_size(self.opening.depth, self.count) {
            return Err(Refusal::ShortOutput);
        }
        Ok(())
    }
}
