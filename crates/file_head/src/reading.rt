// Document 01, 'Challenges and the file': the file's numbers read.
ghost use Rattle.std.specs.Prelude.{◌≡◌};
ghost use Rattle.file_head.specs.Head.{head_answer, head_of};

use crate::Head;
use base::{MAX_CHALLENGES, MAX_DEPTH, MAX_EDITION, Refusal, beyond};
use groups::NUMBER_GROUPS;

// The head, or the first refusal.
#[tactic(auto, unfolding(crate::specs::Head::head_of))]
pub fn read_head(bytes: &[u8]) -> Result<Head, Refusal>
    ensures { head_answer result ≡ head_of bytes.now }
{
    let edition = groups::read(bytes, 0, NUMBER_GROUPS)?;
    if beyond(MAX_EDITION, edition.value) {
        return Err(Refusal::Edition);
    }
    let depth = groups::read(bytes, edition.end, NUMBER_GROUPS)?;
    if beyond(MAX_DEPTH, depth.value) {
        return Err(Refusal::Depth);
    }
    let count = groups::read(bytes, depth.end, NUMBER_GROUPS)?;
    if beyond(MAX_CHALLENGES, count.value) {
        return Err(Refusal::Count);
    }
    Ok(Head {
        edition: edition.value,
        depth: depth.value,
        count: count.value,
        end: count.end,
    })
}
