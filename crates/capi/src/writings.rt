// Whole files, written by budgets.
ghost use Rattle.std.specs.Prelude.{◌≡◌, length};
ghost use Rattle.writing.specs.Rows.{write_row, rewrite_row};
ghost use Rattle.writing.specs.Possible.{written_of};
ghost use Rattle.writing.specs.Steps.{started, labels_in, blocks_in, advanced};

use crate::openings::NO_OPENING;
use crate::runs::NO_WORK;
use base::outcome_number;
use labelling::Tree;
use writing::Writing;

// What stands beside a refusal.
const NO_WRITING: Writing = Writing {
    root: [0; 32],
    count: 0,
    number: 0,
    opening: NO_OPENING,
};

#[repr(C)]
#[derive(Clone, Copy)]
pub struct WritingStarted {
    pub refusal: u64,
    pub writing: Writing,
}

#[repr(C)]
#[derive(Clone, Copy)]
pub struct WritingAdvanced {
    pub refusal: u64,
    pub labels: u64,
    pub blocks: u64,
    pub writing: Writing,
}

// A new writing, with the head and what the store holds of its openings written to the file, or the refusal beside an all-zero one.
pub fn mastdock_writing_start(
    edition: u64,
    statement: &[u8; 32],
    root: &[u8; 32],
    depth: u64,
    memory: u64,
    count: u64,
    store: &[u8],
    file: &mut [u8],
) -> WritingStarted
    ensures refusal_value { result.refusal ≡ write_row edition depth memory count (length store.now) (length file.old) }
    ensures writing_value { result.writing
        ≡ (started edition statement.now root.now depth memory count store.now file.old).writing }
    ensures file_after { file.new
        ≡ (started edition statement.now root.now depth memory count store.now file.old).file }
{
    let tree = Tree {
        statement: *statement,
        edition,
        depth,
    };
    let started = Writing::start(tree, *root, memory, count, store, file);
    WritingStarted {
        refusal: outcome_number(started),
        writing: started.unwrap_or(NO_WRITING),
    }
}

// Labels anew the smaller of the budget and what remains for all openings; `blocks` are those of the labels made in this call.
pub fn mastdock_writing_advance(
    writing: Writing,
    budget: u64,
    store: &[u8],
    file: &mut [u8],
) -> WritingAdvanced
    ensures refusal_value { result.refusal ≡ rewrite_row writing (length store.now) (length file.old) }
    ensures labels_value { result.labels ≡ labels_in store.now (written_of writing file.old) budget }
    ensures blocks_value { result.blocks ≡ blocks_in store.now (written_of writing file.old) budget }
    ensures writing_value { result.writing ≡ (advanced store.now (written_of writing file.old) budget).writing }
    ensures file_after { file.new ≡ (advanced store.now (written_of writing file.old) budget).file }
{
    let mut next = writing;
    let advanced = next.advance(budget, store, file);
    let work = advanced.unwrap_or(NO_WORK);
    WritingAdvanced {
        refusal: outcome_number(advanced),
        labels: work.labels,
        blocks: work.blocks,
        writing: next,
    }
}
