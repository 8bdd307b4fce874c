// SHA-256, in portions and in one call.
ghost use Rattle.std.specs.Prelude.{◌≡◌};
ghost use Rattle.sha256.specs.Portions.{new_hash, update_row, update_state, finish_row, finish_blocks, finish_digest, finish_state};
ghost use Rattle.sha256.specs.Portions.{digest_row, digest_blocks, digest_answer};

use base::outcome_number;
use sha256::{Hash, Hashed};

// What stands beside a refusal.
const NOT_HASHED: Hashed = Hashed {
    digest: [0; 32],
    blocks: 0,
};

#[repr(C)]
#[derive(Clone, Copy)]
pub struct HashUpdated {
    pub refusal: u64,
    pub hash: Hash,
}

#[repr(C)]
#[derive(Clone, Copy)]
pub struct HashFinished {
    pub refusal: u64,
    pub blocks: u64,
    pub digest: [u8; 32],
    pub hash: Hash,
}

#[repr(C)]
#[derive(Clone, Copy)]
pub struct HashDigest {
    pub refusal: u64,
    pub blocks: u64,
    pub digest: [u8; 32],
}

// A hash that has taken nothing.
pub fn mastdock_hash_new() -> Hash
    ensures { result ≡ new_hash }
{
    Hash::new()
}

// A portion more.
pub fn mastdock_hash_update(hash: Hash, part: &[u8]) -> HashUpdated
    ensures refusal_value { result.refusal ≡ update_row hash part.now }
    ensures hash_value { result.hash ≡ update_state hash part.now }
{
    let mut next = hash;
    let updated = next.update(part);
    HashUpdated {
        refusal: outcome_number(updated),
        hash: next,
    }
}

// The digest of what was taken and the blocks of the whole message; the hash is handed back as it was.
pub fn mastdock_hash_finish(hash: Hash) -> HashFinished
    ensures refusal_value { result.refusal ≡ finish_row hash }
    ensures blocks_value { result.blocks ≡ finish_blocks hash }
    ensures digest_value { result.digest ≡ finish_digest hash }
    ensures hash_value { result.hash ≡ hash }
    ensures state_value { result.hash ≡ finish_state hash }
{
    let finished = hash.finish();
    let hashed = finished.unwrap_or(NOT_HASHED);
    let digest = hashed.digest;
    HashFinished {
        refusal: outcome_number(finished),
        blocks: hashed.blocks,
        digest,
        hash,
    }
}

// The digest of a message in one call, and its blocks.
pub fn mastdock_digest(message: &[u8]) -> HashDigest
    ensures refusal_value { result.refusal ≡ digest_row message.now }
    ensures blocks_value { result.blocks ≡ digest_blocks message.now }
    ensures digest_value { result.digest ≡ digest_answer message.now }
{
    let answer = sha256::digest(message);
    let hashed = answer.unwrap_or(NOT_HASHED);
    let digest = hashed.digest;
    HashDigest {
        refusal: outcome_number(answer),
        blocks: hashed.blocks,
        digest,
    }
}
