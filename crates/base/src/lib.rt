// What every layer shares: specs/ has the words of the definitions; here are the limits, the one copy of bytes, numbers as bytes.
#![tactic(auto)]

mod refusal; // refusal.rt: the refusals, and the answers that carry them

ghost use Rattle.std.specs.Prelude.{◌≡◌, ◌+◌, ◌<◌, ◌≤◌, min, length, take, drop};
ghost use Rattle.base.specs.Bytes.{big_endian, written};
ghost use Rattle.base.specs.Lists.{same_bytes};

pub use refusal::{Refusal, Rejection, beyond, code, memory_over, number, outcome_number};

// Document 01's limits and the sizes that follow from them: specs/Limits.antt says what each one is.
pub const MAX_DEPTH: u64 = 40;

pub const MAX_MEMORY: u64 = 14;

pub const MAX_CHALLENGES: u64 = 200;

pub const MAX_LEAVES: usize = MAX_CHALLENGES as usize;

pub const MAX_RUNS: usize = 8;

pub const MAX_EDITION: u64 = 2;

pub const NEW_EDITION: u64 = 2;

pub const MAX_INPUT: usize = 65536;

pub const HELD_SIZE: usize = 32 * (MAX_DEPTH as usize + 1);

pub const MAX_RECORD: usize = 41 + HELD_SIZE;

pub const MAX_STORE: usize = 32 * (2 * (1 << MAX_MEMORY) - 1);

pub const MAX_FILE: usize = 68 + MAX_LEAVES * HELD_SIZE;

pub const MAX_CHAIN: usize = 6855;

// Writes src over dst from `at` on. Its callers know that it fits.
pub fn put(dst: &mut [u8], at: usize, src: &[u8])
    requires { at + length src.now ≤ length dst.old }
    ensures { dst.new ≡ written dst.old at src.now }
{
    // Not copy_from_slice: it calls memmove, and the library for C needs no such name from outside.
    for i in 0..src.len() {
        dst[at + i] = src[i];
    }
}

// A number in eight bytes, highest first.
pub fn big_endian(x: u64) -> [u8; 8]
    ensures { result ≡ big_endian 8 x }
{
    x.to_be_bytes()
}

// Whether two lists of bytes of one length are the same.
pub fn same(a: &[u8], b: &[u8]) -> bool
    requires { length a.now ≡ length b.now }
    ensures { result ≡ same_bytes a.now b.now }
{
    a == b
}

// The 32 bytes at a place.
pub fn label_at(bytes: &[u8], at: usize) -> [u8; 32]
    requires { at + 32 ≤ length bytes.now }
    ensures { result ≡ take 32 (drop at bytes.now) }
{
    let end = at + 32;
    let mut label = [0u8; 32];
    label.copy_from_slice(&bytes[at..end]);
    label
}
