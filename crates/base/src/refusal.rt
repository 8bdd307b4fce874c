// The refusals of document 01 and of the change requests, and the answers that carry them.
ghost use Rattle.std.specs.Prelude.{◌≡◌};
ghost use Rattle.base.specs.Number.{number_of, outcome_number, code_of};
ghost use Rattle.base.specs.Row.{outside, memory_over};

use crate::MAX_MEMORY;

// What was wrong, with its number: document 01's, and from 18 on a change request's.
#[derive(Clone, Copy, Debug, PartialEq, Eq)]
pub enum Refusal {
    Depth = 1,
    MemoryLevel = 2,
    ShortStore = 3,
    State = 4,
    TooManyBytes = 5,
    LeafPosition = 6,
    ShortOutput = 7,
    Count = 8,
    NotWanted = 9,
    BytesEnd = 10,
    NotShortest = 11,
    Edition = 12,
    BytesLeft = 13,
    LeafLabel = 14,
    Root = 15,
    ShortList = 16,
    Input = 17,
    RecordLength = 18,
    Runs = 21,
}

// Why a file is not accepted: a refusal with the opening that it was found in, from 1, or 0 outside openings.
#[derive(Clone, Copy, Debug, PartialEq, Eq)]
pub struct Rejection {
    pub refusal: Refusal,
    pub opening: u8,
}

// A refusal outside openings.
impl From<Refusal> for Rejection {
    ghost from_gives = { λ refusal result. result ≡ record { refusal = refusal; opening = 0 } };

    fn from(refusal: Refusal) -> Rejection {
        Rejection {
            refusal,
            opening: 0,
        }
    }
}

// The number of a refusal.
pub fn number(r: Refusal) -> u64
    ensures { result ≡ number_of r }
{
    r as u64
}

// The number of an answer: 0 if done.
pub fn outcome_number<T: Copy>(answer: Result<T, Refusal>) -> u64
    ensures { result ≡ outcome_number answer }
{
    match answer {
        Ok(_) => 0,
        Err(refusal) => number(refusal),
    }
}

// A check's answer as one number.
pub fn code(answer: Result<(), Rejection>) -> u64
    ensures { result ≡ code_of answer }
{
    match answer {
        Ok(()) => 0,
        Err(found) => 256 * number(found.refusal) + u64::from(found.opening),
    }
}

// Whether a number is not from 1 to the highest.
pub fn beyond(high: u64, x: u64) -> bool
    ensures { result ≡ outside 1 high x }
{
    !(1..=high).contains(&x)
}

// Whether a memory level is over the smaller of the depth and the limit.
pub fn memory_over(depth: u64, memory: u64) -> bool
    ensures { result ≡ memory_over depth memory }
{
    depth.min(MAX_MEMORY) < memory
}
