// W-208: several runs in one unit.
ghost use Rattle.std.specs.Prelude.{◌≡◌, length};
ghost use Rattle.unit.specs.Rows.{unit_row};
ghost use Rattle.unit.specs.Turns.{carried, labels_in, blocks_in, advanced, place_offset, place_length};

use crate::runs::NO_WORK;
use base::outcome_number;
use unit::{StampingUnit, StorePlace};

#[repr(C)]
#[derive(Clone, Copy)]
pub struct UnitAdvanced {
    pub refusal: u64,
    pub labels: u64,
    pub blocks: u64,
    pub unit: StampingUnit,
}

// Makes the smaller of the budget and all labels that remain, one at a time, in turn; `blocks` are those of the labels made in this call.
pub fn mastdock_unit_advance(unit: StampingUnit, budget: u64, store: &mut [u8]) -> UnitAdvanced
    ensures refusal_value { result.refusal ≡ unit_row unit (length store.old) }
    ensures labels_value { result.labels ≡ labels_in (carried unit store.old) budget }
    ensures blocks_value { result.blocks ≡ blocks_in (carried unit store.old) budget }
    ensures unit_value { result.unit ≡ (advanced (carried unit store.old) budget).unit }
    ensures store_after { store.new ≡ (advanced (carried unit store.old) budget).store }
{
    let mut next = unit;
    let advanced = next.advance(budget, store);
    let work = advanced.unwrap_or(NO_WORK);
    UnitAdvanced {
        refusal: outcome_number(advanced),
        labels: work.labels,
        blocks: work.blocks,
        unit: next,
    }
}

// Where the store of run i, from 1, lies in the slice; 0 and 0 where there is none.
pub fn mastdock_unit_store_place(unit: StampingUnit, i: u64, store: &[u8]) -> StorePlace
    ensures offset_value { result.offset ≡ place_offset unit i (length store.now) }
    ensures length_value { result.length ≡ place_length unit i (length store.now) }
{
    match unit.store_place(i, store) {
        Some(place) => place,
        None => StorePlace {
            offset: 0,
            length: 0,
        },
    }
}
