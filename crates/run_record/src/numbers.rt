// W-201: the record's numbers read, each in turn.
ghost use Rattle.std.specs.Prelude.{◌≡◌};
ghost use Rattle.run_record.specs.Reading.{numbers_answer, numbers_of};

use crate::{MADE_GROUPS, RecordNumbers};
use base::{MAX_EDITION, Refusal, beyond};
use groups::NUMBER_GROUPS;

// The four numbers, or the first refusal. Six groups hold every count of labels made.
#[tactic(auto, unfolding(crate::specs::Reading::numbers_of))]
pub fn read_numbers(bytes: &[u8]) -> Result<RecordNumbers, Refusal>
    ensures { numbers_answer result ≡ numbers_of bytes.now }
{
    let edition = groups::read(bytes, 0, NUMBER_GROUPS)?;
    if beyond(MAX_EDITION, edition.value) {
        return Err(Refusal::Edition);
    }
    let depth = groups::read(bytes, edition.end, NUMBER_GROUPS)?;
    let memory = groups::read(bytes, depth.end, NUMBER_GROUPS)?;
    let made = groups::read(bytes, memory.end, MADE_GROUPS)?;
    Ok(RecordNumbers {
        edition: edition.value,
        depth: depth.value,
        memory: memory.value,
        made: made.value,
        end: made.end,
    })
}
