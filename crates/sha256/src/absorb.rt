// FIPS 180-4, 6.2.2: the hash words after each whole block of some bytes, from the front.
ghost use Rattle.std.specs.Prelude.{◌≡◌};
ghost use Rattle.sha256.specs.Padding.{blocks};
ghost use Rattle.sha256.specs.Digest.{hash_after};

use crate::parse::gather;
use compression::Words;

pub fn absorb(start: Words, bytes: &[u8]) -> Words
    ensures { result ≡ hash_after start bytes.now (blocks bytes.now) }
{
    let mut v = start;
    let (blocks, _) = bytes.as_chunks::<64>();
    for block in blocks {
        v = v.compress(gather(block));
    }
    v
}
