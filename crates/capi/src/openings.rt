// Openings.
ghost use Rattle.std.specs.Prelude.{◌≡◌, length};
ghost use Rattle.opening.specs.Rows.{open_row, reopen_row};
ghost use Rattle.opening.specs.Names.{open_of};
ghost use Rattle.opening.specs.Steps.{started, started_out, labels_in, blocks_in, advanced};

use crate::runs::NO_WORK;
use base::{HELD_SIZE, outcome_number};
use labelling::Tree;
use opening::Opening;

// What stands beside a refusal.
pub const NO_OPENING: Opening = Opening {
    statement: [0; 32],
    edition: 0,
    depth: 0,
    memory: 0,
    leaf: 0,
    made: 0,
    held: [0; HELD_SIZE],
};

#[repr(C)]
#[derive(Clone, Copy)]
pub struct OpeningStarted {
    pub refusal: u64,
    pub opening: Opening,
}

#[repr(C)]
#[derive(Clone, Copy)]
pub struct OpeningAdvanced {
    pub refusal: u64,
    pub labels: u64,
    pub blocks: u64,
    pub opening: Opening,
}

// A new opening, with what the store holds of it copied to the output, or the refusal beside an all-zero one.
pub fn mastdock_opening_start(
    edition: u64,
    statement: &[u8; 32],
    depth: u64,
    memory: u64,
    leaf: u64,
    store: &[u8],
    out: &mut [u8],
) -> OpeningStarted
    ensures refusal_value { result.refusal ≡ open_row edition depth memory leaf (length store.now) (length out.old) }
    ensures opening_value { result.opening ≡ started edition statement.now depth memory leaf (length store.now) (length out.old) }
    ensures out_after { out.new ≡ started_out edition depth memory leaf store.now out.old }
{
    let tree = Tree {
        statement: *statement,
        edition,
        depth,
    };
    let started = Opening::start(tree, memory, leaf, store, out);
    OpeningStarted {
        refusal: outcome_number(started),
        opening: started.unwrap_or(NO_OPENING),
    }
}

// Labels anew the smaller of the budget and what remains; `blocks` are those of the labels made in this call.
pub fn mastdock_opening_advance(
    opening: Opening,
    budget: u64,
    store: &[u8],
    out: &mut [u8],
) -> OpeningAdvanced
    ensures refusal_value { result.refusal ≡ reopen_row opening (length store.now) (length out.old) }
    ensures labels_value { result.labels ≡ labels_in store.now (open_of opening out.old) budget }
    ensures blocks_value { result.blocks ≡ blocks_in store.now (open_of opening out.old) budget }
    ensures opening_value { result.opening ≡ (advanced store.now (open_of opening out.old) budget).opening }
    ensures out_after { out.new ≡ (advanced store.now (open_of opening out.old) budget).out }
{
    let mut next = opening;
    let advanced = next.advance(budget, store, out);
    let work = advanced.unwrap_or(NO_WORK);
    OpeningAdvanced {
        refusal: outcome_number(advanced),
        labels: work.labels,
        blocks: work.blocks,
        opening: next,
    }
}
