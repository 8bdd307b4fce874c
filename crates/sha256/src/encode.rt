// The digest as bytes, and the end of a message: its last blocks, with the padding of FIPS 180-4, 5.1.1.
ghost use Rattle.std.specs.Prelude.{◌%◌, ◌≤◌, ◌≡◌, length, ◌++◌};
ghost use Rattle.sha256.specs.Padding.{padding, blocks, blocks_of};
ghost use Rattle.sha256.specs.Digest.{hash_after, digest_of};
ghost use Rattle.base.specs.Limits.{max_hashed};

use crate::absorb::absorb;
use base::{big_endian, put};
use compression::Words;

// The hash words as bytes.
pub fn digest_bytes(v: Words) -> [u8; 32]
    ensures { result ≡ digest_of v }
{
    let a = v.a.to_be_bytes();
    let b = v.b.to_be_bytes();
    let c = v.c.to_be_bytes();
    let d = v.d.to_be_bytes();
    let e = v.e.to_be_bytes();
    let f = v.f.to_be_bytes();
    let g = v.g.to_be_bytes();
    let h = v.h.to_be_bytes();
    [
        a[0], a[1], a[2], a[3], b[0], b[1], b[2], b[3], c[0], c[1], c[2], c[3], d[0], d[1], d[2],
        d[3], e[0], e[1], e[2], e[3], f[0], f[1], f[2], f[3], g[0], g[1], g[2], g[3], h[0], h[1],
        h[2], h[3],
    ]
}

// How many blocks a message of so many bytes fills when it is padded.
pub fn block_count(len: usize) -> usize
    requires { len ≤ max_hashed }
    ensures { result ≡ blocks_of len }
{
    (len + 8) / 64 + 1
}

// The digest of a message of len bytes: from the hash words after its whole blocks, and what is left of it.
pub fn digest_after(words: Words, rest: &[u8], len: u64) -> [u8; 32]
    requires { (length rest.now ≡ len % 64) × (len ≤ max_hashed) }
    ensures { result ≡ digest_of (hash_after words (rest.now ++ padding len) (blocks (rest.now ++ padding len))) }
{
    let at = rest.len();
    let end = 64 * block_count(at);
    let bits = big_endian(8 * len);
    let mut bytes = [0u8; 128];
    put(&mut bytes, 0, rest);
    put(&mut bytes, at, &[128]);
    put(&mut bytes, end - 8, &bits);
    digest_bytes(absorb(words, &bytes[..end]))
}
