// Bytes pushed into a state: through the tail to the end of its block, then whole blocks straight
// from the slice, then the rest to the tail.
ghost use Rattle.std.specs.Prelude.{◌+◌, ◌%◌, ◌^◌, ◌<◌, ◌≤◌, ◌≡◌, length};
ghost use Rattle.sha256.specs.Padding.{padding};
ghost use Rattle.sha256.specs.Digest.{digest_of};
ghost use Rattle.base.specs.Limits.{max_hashed};
ghost use Rattle.sha256.specs.Portions.{cleared, pushed_all};

use crate::Hash;
use crate::absorb::absorb;
use crate::encode::digest_after;
use base::put;
use compression::Words;

// Bytes at the start of a block: no byte of a whole block is copied.
fn aligned(words: Words, taken: u64, bytes: &[u8]) -> Hash
    requires { (taken % 64 ≡ 0) × (taken + length bytes.now < 2 ^ 64) }
    ensures { result ≡ pushed_all (cleared words taken) bytes.now }
{
    let at = 64 * (bytes.len() / 64);
    let mut tail = [0u8; 64];
    put(&mut tail, 0, &bytes[at..]);
    Hash {
        words: absorb(words, bytes),
        tail,
        taken: taken + bytes.len() as u64,
    }
}

impl Hash {
    // Bytes that do not fill the tail.
    fn within(self, bytes: &[u8]) -> Hash
        requires { (self.taken % 64 + length bytes.now < 64) × (self.taken + length bytes.now < 2 ^ 64) }
        ensures { result ≡ pushed_all self bytes.now }
    {
        let mut tail = self.tail;
        put(&mut tail, (self.taken % 64) as usize, bytes);
        Hash {
            words: self.words,
            tail,
            taken: self.taken + bytes.len() as u64,
        }
    }

    // Bytes that fill the tail.
    fn beyond(self, bytes: &[u8]) -> Hash
        requires { (64 ≤ self.taken % 64 + length bytes.now) × (self.taken + length bytes.now < 2 ^ 64) }
        ensures { result ≡ pushed_all self bytes.now }
    {
        let at = (self.taken % 64) as usize;
        let room = 64 - at;
        let mut tail = self.tail;
        put(&mut tail, at, &bytes[..room]);
        let words = absorb(self.words, &tail);
        aligned(words, self.taken + room as u64, &bytes[room..])
    }

    // The state after some bytes.
    pub(crate) fn pushed(self, bytes: &[u8]) -> Hash
        requires { self.taken + length bytes.now < 2 ^ 64 }
        ensures { result ≡ pushed_all self bytes.now }
    {
        let room = 64 - (self.taken % 64) as usize;
        if bytes.len() < room {
            self.within(bytes)
        } else {
            self.beyond(bytes)
        }
    }

    // The digest of what a state has taken: the tail's bytes and the padding make whole blocks.
    pub(crate) fn closed(self) -> [u8; 32]
        requires { self.taken ≤ max_hashed }
        ensures { result ≡ digest_of (pushed_all self (padding self.taken)).words }
    {
        let at = (self.taken % 64) as usize;
        let tail = self.tail;
        digest_after(self.words, &tail[..at], self.taken)
    }
}
