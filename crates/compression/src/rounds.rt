// FIPS 180-4, 6.2.2: sixteen rounds at a time, and the sixteen words of the message schedule after those of a block.
ghost use Rattle.std.specs.Prelude.{◌≡◌, ◌≤◌};
ghost use Rattle.compression.specs.Compression.{scheduled};
ghost use Rattle.compression.specs.Sixteens.{sixteen_rounds, Follows};

use crate::Words;
use crate::bits::{small0, small1};

// 4.2.2: the constants of the rounds.
const CONSTANTS: [u32; 64] = [
    0x428a2f98, 0x71374491, 0xb5c0fbcf, 0xe9b5dba5, 0x3956c25b, 0x59f111f1, 0x923f82a4, 0xab1c5ed5,
    0xd807aa98, 0x12835b01, 0x243185be, 0x550c7dc3, 0x72be5d74, 0x80deb1fe, 0x9bdc06a7, 0xc19bf174,
    0xe49b69c1, 0xefbe4786, 0x0fc19dc6, 0x240ca1cc, 0x2de92c6f, 0x4a7484aa, 0x5cb0a9dc, 0x76f988da,
    0x983e5152, 0xa831c66d, 0xb00327c8, 0xbf597fc7, 0xc6e00bf3, 0xd5a79147, 0x06ca6351, 0x14292967,
    0x27b70a85, 0x2e1b2138, 0x4d2c6dfc, 0x53380d13, 0x650a7354, 0x766a0abb, 0x81c2c92e, 0x92722c85,
    0xa2bfe8a1, 0xa81a664b, 0xc24b8b70, 0xc76c51a3, 0xd192e819, 0xd6990624, 0xf40e3585, 0x106aa070,
    0x19a4c116, 0x1e376c08, 0x2748774c, 0x34b0bcb5, 0x391c0cb3, 0x4ed8aa4a, 0x5b9cca4f, 0x682e6ff3,
    0x748f82ee, 0x78a5636f, 0x84c87814, 0x8cc70208, 0x90befffa, 0xa4506ceb, 0xbef9a3f7, 0xc67178f2,
];

// Step 1: W_t from W_(t−2), W_(t−7), W_(t−15) and W_(t−16).
#[tactic(auto, unfolding(crate::specs::Compression::scheduled))]
fn schedule(a: u32, b: u32, c: u32, d: u32) -> u32
    ensures { result ≡ scheduled a b c d }
{
    small1(a)
        .wrapping_add(b)
        .wrapping_add(small0(c))
        .wrapping_add(d)
}

// Step 3: the rounds t to t + 15, where w holds their words.
// Not a `for` over the sixteen: it was tried, and took 6 % more instructions.
#[tactic(auto, unfolding(crate::specs::Sixteens::sixteen_rounds))]
pub fn sixteen(t: usize, w: [u32; 16], v: Words) -> Words
    requires { t ≤ 48 }
    ensures { result ≡ sixteen_rounds t w v }
{
    let v = v.turn(CONSTANTS[t], w[0]);
    let v = v.turn(CONSTANTS[t + 1], w[1]);
    let v = v.turn(CONSTANTS[t + 2], w[2]);
    let v = v.turn(CONSTANTS[t + 3], w[3]);
    let v = v.turn(CONSTANTS[t + 4], w[4]);
    let v = v.turn(CONSTANTS[t + 5], w[5]);
    let v = v.turn(CONSTANTS[t + 6], w[6]);
    let v = v.turn(CONSTANTS[t + 7], w[7]);
    let v = v.turn(CONSTANTS[t + 8], w[8]);
    let v = v.turn(CONSTANTS[t + 9], w[9]);
    let v = v.turn(CONSTANTS[t + 10], w[10]);
    let v = v.turn(CONSTANTS[t + 11], w[11]);
    let v = v.turn(CONSTANTS[t + 12], w[12]);
    let v = v.turn(CONSTANTS[t + 13], w[13]);
    let v = v.turn(CONSTANTS[t + 14], w[14]);
    v.turn(CONSTANTS[t + 15], w[15])
}

// The same rounds, and the sixteen words of the schedule after those of w. Each word stands beside a round that does not need
// it, so that the processor has work while the round's sums wait for one another.
// Not a `for` over the sixteen: it was tried, and took 22 % more instructions.
pub fn turn_and_extend(t: usize, w: [u32; 16], v: Words) -> (Words, [u32; 16])
    requires { t ≤ 48 }
    ensures words_value { result.0 ≡ sixteen_rounds t w v }
    ensures follows { Follows w result.1 }
{
    let v = v.turn(CONSTANTS[t], w[0]);
    let w0 = schedule(w[14], w[9], w[1], w[0]);
    let v = v.turn(CONSTANTS[t + 1], w[1]);
    let w1 = schedule(w[15], w[10], w[2], w[1]);
    let v = v.turn(CONSTANTS[t + 2], w[2]);
    let w2 = schedule(w0, w[11], w[3], w[2]);
    let v = v.turn(CONSTANTS[t + 3], w[3]);
    let w3 = schedule(w1, w[12], w[4], w[3]);
    let v = v.turn(CONSTANTS[t + 4], w[4]);
    let w4 = schedule(w2, w[13], w[5], w[4]);
    let v = v.turn(CONSTANTS[t + 5], w[5]);
    let w5 = schedule(w3, w[14], w[6], w[5]);
    let v = v.turn(CONSTANTS[t + 6], w[6]);
    let w6 = schedule(w4, w[15], w[7], w[6]);
    let v = v.turn(CONSTANTS[t + 7], w[7]);
    let w7 = schedule(w5, w0, w[8], w[7]);
    let v = v.turn(CONSTANTS[t + 8], w[8]);
    let w8 = schedule(w6, w1, w[9], w[8]);
    let v = v.turn(CONSTANTS[t + 9], w[9]);
    let w9 = schedule(w7, w2, w[10], w[9]);
    let v = v.turn(CONSTANTS[t + 10], w[10]);
    let w10 = schedule(w8, w3, w[11], w[10]);
    let v = v.turn(CONSTANTS[t + 11], w[11]);
    let w11 = schedule(w9, w4, w[12], w[11]);
    let v = v.turn(CONSTANTS[t + 12], w[12]);
    let w12 = schedule(w10, w5, w[13], w[12]);
    let v = v.turn(CONSTANTS[t + 13], w[13]);
    let w13 = schedule(w11, w6, w[14], w[13]);
    let v = v.turn(CONSTANTS[t + 14], w[14]);
    let w14 = schedule(w12, w7, w[15], w[14]);
    let v = v.turn(CONSTANTS[t + 15], w[15]);
    let w15 = schedule(w13, w8, w0, w[15]);
    let next = [
        w0, w1, w2, w3, w4, w5, w6, w7, w8, w9, w10, w11, w12, w13, w14, w15,
    ];
    (v, next)
}
