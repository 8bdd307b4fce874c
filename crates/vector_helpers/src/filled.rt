// The leaves of a file's challenges, and digests of chains. For the programs of the gate.
ghost use Rattle.std.specs.Prelude.{◌≡◌, min, map};
ghost use Rattle.base.specs.Limits.{max_challenges};
ghost use Rattle.base.specs.Bytes.{big_endian};
ghost use Rattle.sha256.specs.Portions.{new_hash, updated_all, finish_digest};
ghost use Rattle.vector_helpers.specs.Whole.{leaves_to};

use crate::carried::digest_of;
use base::{MAX_LEAVES, big_endian};
use file_head::challenge;
use sha256::Hash;

// The greatest memory level that there is room for.
pub fn most(depth: u64) -> u64
    ensures { result ≡ min depth 12 }
{
    depth.min(12)
}

// The leaves of challenges 1 to 200.
pub fn challenged(
    edition: u64,
    depth: u64,
    statement: [u8; 32],
    root: [u8; 32],
) -> [u64; MAX_LEAVES]
    ensures { result ≡ leaves_to edition depth statement root max_challenges }
{
    let mut leaves = [0u64; MAX_LEAVES];
    for i in 0..MAX_LEAVES {
        leaves[i] = challenge(edition, depth, statement, root, i as u64 + 1).unwrap_or(0);
    }
    leaves
}

// The digest of a list's places, each in 8 bytes; 32 zero bytes if they are too many.
pub fn places_digest(list: &[u64]) -> [u8; 32]
    ensures { result ≡ finish_digest (updated_all new_hash (map (big_endian 8) list.now)) }
{
    let mut state = Hash::new();
    for place in list {
        let _ = state.update(&big_endian(*place));
    }
    digest_of(&state)
}
