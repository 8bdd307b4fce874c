// The compression of SHA-256 (FIPS 180-4, 6.2.2): eight new hash words from the eight old ones and the sixteen of a block. No byte occurs here.
#![tactic(auto)]

mod bits; // bits.rt: the operations on words of section 4.1.2
mod rounds; // rounds.rt: sixteen rounds at a time, and the message schedule

ghost use Rattle.std.specs.Prelude.{◌≡◌};

use bits::{big0, big1, choose, majority};
use rounds::{sixteen, turn_and_extend};

// The eight hash words, or the working variables a to h. They are fields and no array, so that a round reads as FIPS 180-4 writes it.
#[repr(C)]
#[derive(Clone, Copy, Debug, PartialEq, Eq)]
pub struct Words {
    pub a: u32,
    pub b: u32,
    pub c: u32,
    pub d: u32,
    pub e: u32,
    pub f: u32,
    pub g: u32,
    pub h: u32,
}

// 5.3.3: the initial hash value.
pub const INITIAL: Words = Words {
    a: 0x6a09e667,
    b: 0xbb67ae85,
    c: 0x3c6ef372,
    d: 0xa54ff53a,
    e: 0x510e527f,
    f: 0x9b05688c,
    g: 0x1f83d9ab,
    h: 0x5be0cd19,
};

impl Words {
    ghost use Rattle.compression.specs.Compression.{round, added, compressed};

    // Step 3: one round, with K_t and W_t.
    #[tactic(auto, using(crate::proofs::Bitwise::t1_early), unfolding(crate::specs::Compression::round))]
    pub(crate) fn turn(self, k: u32, w: u32) -> Words
        ensures { result ≡ round k w self }
    {
        // The sum of k and w does not wait for the round before.
        let t1 = self
            .h
            .wrapping_add(k.wrapping_add(w))
            .wrapping_add(choose(self.e, self.f, self.g))
            .wrapping_add(big1(self.e));
        let t2 = big0(self.a).wrapping_add(majority(self.a, self.b, self.c));
        Words {
            a: t1.wrapping_add(t2),
            b: self.a,
            c: self.b,
            d: self.c,
            e: self.d.wrapping_add(t1),
            f: self.e,
            g: self.f,
            h: self.g,
        }
    }

    // Step 4: word by word.
    fn plus(self, other: Words) -> Words
        ensures { result ≡ added self other }
    {
        Words {
            a: self.a.wrapping_add(other.a),
            b: self.b.wrapping_add(other.b),
            c: self.c.wrapping_add(other.c),
            d: self.d.wrapping_add(other.d),
            e: self.e.wrapping_add(other.e),
            f: self.f.wrapping_add(other.f),
            g: self.g.wrapping_add(other.g),
            h: self.h.wrapping_add(other.h),
        }
    }

    // The hash words after one more block. `turn_and_extend` is called in one place only, so that the compiler puts it there: the
    // working variables then stay in registers.
    pub fn compress(self, block: [u32; 16]) -> Words
        ensures { result ≡ compressed self block }
    {
        let mut v = self;
        let mut w = block;
        for i in 0..3 {
            (v, w) = turn_and_extend(16 * i, w, v);
        }
        sixteen(48, w, v).plus(self)
    }
}
