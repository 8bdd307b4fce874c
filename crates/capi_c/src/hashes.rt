// SHA-256, in portions and in one call.
ghost use Rattle.std.specs.Prelude.{◌≡◌};
ghost use Rattle.sha256.specs.Portions.{new_hash, update_row, update_state, finish_row, finish_blocks, finish_digest, finish_state};
ghost use Rattle.sha256.specs.Portions.{digest_row, digest_blocks, digest_answer};

use capi::{HashDigest, HashFinished, HashUpdated};
use sha256::Hash;

// A hash that has taken nothing.
#[unsafe(no_mangle)]
pub extern "C" fn mastdock_hash_new() -> Hash
    ensures { result ≡ new_hash }
{
    capi::mastdock_hash_new()
}

// A portion more.
#[unsafe(no_mangle)]
pub extern "C" fn mastdock_hash_update(hash: Hash, part: &[u8]) -> HashUpdated
    ensures refusal_value { result.refusal ≡ update_row hash part.now }
    ensures hash_value { result.hash ≡ update_state hash part.now }
{
    capi::mastdock_hash_update(hash, part)
}

// The digest of what was taken and the blocks of the whole message; the hash is handed back as it was.
#[unsafe(no_mangle)]
pub extern "C" fn mastdock_hash_finish(hash: Hash) -> HashFinished
    ensures refusal_value { result.refusal ≡ finish_row hash }
    ensures blocks_value { result.blocks ≡ finish_blocks hash }
    ensures digest_value { result.digest ≡ finish_digest hash }
    ensures hash_value { result.hash ≡ hash }
    ensures state_value { result.hash ≡ finish_state hash }
{
    capi::mastdock_hash_finish(hash)
}

// The digest of a message in one call, and its blocks.
#[unsafe(no_mangle)]
pub extern "C" fn mastdock_digest(message: &[u8]) -> HashDigest
    ensures refusal_value { result.refusal ≡ digest_row message.now }
    ensures blocks_value { result.blocks ≡ digest_blocks message.now }
    ensures digest_value { result.digest ≡ digest_answer message.now }
{
    capi::mastdock_digest(message)
}
