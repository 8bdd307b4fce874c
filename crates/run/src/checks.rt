// Document 01's rows 'Starting a run' and 'Continuing a run', for every number.
ghost use Rattle.std.specs.Prelude.{◌≡◌, ◌≤◌, [], ◌∷◌, ltb};
ghost use Rattle.base.specs.Limits.{max_depth, max_memory};
ghost use Rattle.base.specs.Number.{outcome_number};
ghost use Rattle.base.specs.Row.{first_of, outside, no_edition, memory_over, either};
ghost use Rattle.tree.specs.Walk.{nodes_in};
ghost use Rattle.tree.specs.Store.{store_size};
ghost use Rattle.run.specs.Rows.{impossible, start_row, continue_row};

use crate::Run;
use base::{MAX_DEPTH, MAX_EDITION, Refusal, beyond, memory_over};

// The number of nodes of a tree.
pub fn nodes(depth: u64) -> u64
    requires { depth ≤ max_depth }
    ensures { result ≡ nodes_in depth }
{
    2 * (1u64 << depth) - 1
}

// The bytes of a store.
pub fn store_size(memory: u64) -> u64
    requires { memory ≤ max_memory }
    ensures { result ≡ store_size memory }
{
    32 * nodes(memory)
}

// Whether a store is too short.
pub fn store_short(memory: u64, store: usize) -> bool
    requires { memory ≤ max_memory }
    ensures { result ≡ ltb store (store_size memory) }
{
    (store as u64) < store_size(memory)
}

// 3: the store is too short.
pub fn check_store(memory: u64, store: usize) -> Result<(), Refusal>
    requires { memory ≤ max_memory }
    ensures { outcome_number result ≡ first_of ((ltb store (store_size memory), 3) ∷ []) }
{
    if store_short(memory, store) {
        return Err(Refusal::ShortStore);
    }
    Ok(())
}

// Whether no run and no opening has these numbers: there is no such edition, or the depth or the memory level is out of range.
pub fn outside(edition: u64, depth: u64, memory: u64) -> bool
    ensures { result ≡ either (no_edition edition) (either (outside 1 max_depth depth) (memory_over depth memory)) }
{
    beyond(MAX_EDITION, edition) || beyond(MAX_DEPTH, depth) || memory_over(depth, memory)
}

// Whether no run has these numbers.
pub fn not_possible(edition: u64, depth: u64, memory: u64, made: u64) -> bool
    ensures { result ≡ impossible edition depth memory made (nodes_in depth) }
{
    outside(edition, depth, memory) || nodes(depth) < made
}

#[tactic(auto, unfolding(crate::specs::Rows::start_row))]
pub fn may_start(depth: u64, memory: u64, store: usize) -> Result<(), Refusal>
    ensures { outcome_number result ≡ start_row depth memory store }
{
    if beyond(MAX_DEPTH, depth) {
        return Err(Refusal::Depth);
    }
    if memory_over(depth, memory) {
        return Err(Refusal::MemoryLevel);
    }
    check_store(memory, store)
}

impl Run {
    #[tactic(auto, unfolding(crate::specs::Rows::continue_row))]
    pub fn may_continue(&self, store: usize) -> Result<(), Refusal>
        ensures { outcome_number result ≡ continue_row self.now store }
    {
        if not_possible(self.edition, self.depth, self.memory, self.made) {
            return Err(Refusal::State);
        }
        check_store(self.memory, store)
    }
}
