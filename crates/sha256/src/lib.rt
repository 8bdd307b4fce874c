// SHA-256 (FIPS 180-4): in portions, in one call, and of bytes that are padded already.
#![tactic(auto)]

mod absorb; // absorb.rt: whole blocks, straight from a slice
mod encode; // encode.rt: numbers as bytes, and the padding
mod parse; // parse.rt: the sixteen words of a block
mod push; // push.rt: bytes pushed into a state

ghost use Rattle.std.specs.Prelude.{◌+◌, ◌≡◌, [], ◌∷◌, leb, IfOk};
ghost use Rattle.compression.specs.Constants.{initial};
ghost use Rattle.sha256.specs.Padding.{blocks};
ghost use Rattle.sha256.specs.Digest.{hash_after, digest_of};
ghost use Rattle.base.specs.Limits.{max_hashed};
ghost use Rattle.base.specs.Number.{outcome_number};
ghost use Rattle.base.specs.Row.{first_of};
ghost use Rattle.sha256.specs.Portions.{new_hash, update_row, update_state, digest_row, digest_blocks, digest_answer};
ghost use Rattle.sha256.specs.Portions.{finish_row, finish_blocks, finish_digest};

use absorb::absorb;
use base::Refusal;
use compression::{INITIAL, Words};
pub use encode::block_count;
use encode::{digest_after, digest_bytes};

// A hash under way: the hash words, the bytes that wait for their block to fill, and how many
// bytes were taken in all.
#[repr(C)]
#[derive(Clone, Copy)]
pub struct Hash {
    pub words: Words,
    pub tail: [u8; 64],
    pub taken: u64,
}

// A message's digest, and the blocks that it fills when it is padded.
#[derive(Clone, Copy, Debug, PartialEq, Eq)]
pub struct Hashed {
    pub digest: [u8; 32],
    pub blocks: u64,
}

// The most bytes that can be hashed: their number in bits fits in 64.
const LIMIT: u64 = 0x1fff_ffff_ffff_ffff;

// Refuses some bytes and more of them where they are too many.
fn check_count(taken: u64, more: usize) -> Result<(), Refusal>
    ensures { outcome_number result ≡ first_of ((leb (max_hashed + 1) (taken + more), 5) ∷ []) }
{
    if LIMIT < taken || LIMIT - taken < more as u64 {
        return Err(Refusal::TooManyBytes);
    }
    Ok(())
}

impl Hash {
    // A state that has taken nothing.
    pub fn new() -> Hash
        ensures { result ≡ new_hash }
    {
        let tail = [0u8; 64];
        Hash {
            words: INITIAL,
            tail,
            taken: 0,
        }
    }

    // Takes a portion of the message, of any length. A state that would have taken too many bytes stays as it was.
    #[tactic(auto, unfolding(crate::specs::Portions::update_row, crate::specs::Portions::update_state))]
    pub fn update(&mut self, part: &[u8]) -> Result<(), Refusal>
        ensures outcome_value { outcome_number result ≡ update_row self.old part.now }
        ensures state_after { self.new ≡ update_state self.old part.now }
    {
        check_count(self.taken, part.len())?;
        *self = self.pushed(part);
        Ok(())
    }

    // The digest of all that was taken, and its blocks.
    #[tactic(auto, unfolding(crate::specs::Portions::finish_row, crate::specs::Portions::finish_digest, crate::specs::Portions::finish_blocks))]
    pub fn finish(&self) -> Result<Hashed, Refusal>
        ensures outcome_value { outcome_number result ≡ finish_row self.now }
        ensures digest_value { IfOk result (λ h. (h.digest ≡ finish_digest self.now) × (h.blocks ≡ finish_blocks self.now)) }
    {
        check_count(self.taken, 0)?;
        Ok(Hashed {
            digest: self.closed(),
            blocks: block_count(self.taken as usize) as u64,
        })
    }
}

// The digest of a whole message, and its blocks.
#[tactic(auto, unfolding(crate::specs::Portions::digest_row, crate::specs::Portions::digest_answer, crate::specs::Portions::digest_blocks))]
pub fn digest(message: &[u8]) -> Result<Hashed, Refusal>
    ensures outcome_value { outcome_number result ≡ digest_row message.now }
    ensures digest_value { IfOk result (λ h. (h.digest ≡ digest_answer message.now) × (h.blocks ≡ digest_blocks message.now)) }
{
    check_count(0, message.len())?;
    let at = 64 * (message.len() / 64);
    let words = absorb(INITIAL, message);
    Ok(Hashed {
        digest: digest_after(words, &message[at..], message.len() as u64),
        blocks: block_count(message.len()) as u64,
    })
}

// The digest of bytes that are padded already. Bytes beyond the last whole block are ignored.
pub fn digest_padded(bytes: &[u8]) -> [u8; 32]
    ensures { result ≡ digest_of (hash_after initial bytes.now (blocks bytes.now)) }
{
    digest_bytes(absorb(INITIAL, bytes))
}
