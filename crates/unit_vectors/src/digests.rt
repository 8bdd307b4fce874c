// SHA-256 of FIPS 180-4's examples, of shared vectors and at the limit of a hash: each message goes in one portion, cut unevenly, and through
// the one call.
use base::{Refusal, outcome_number};
use sha256::{Hash, Hashed, digest};
use std::io;
use std::io::Stdout;
use vector_helpers::Hex;

// What is printed where nothing is hashed.
const NOT_HASHED: Hashed = Hashed {
    digest: [0u8; 32],
    blocks: 0,
};

// The message of the shared vectors: its i-th byte is (7 i + len) mod 256.
fn fill(message: &mut [u8], len: usize) {
    let mut next = (len % 256) as u8;
    for byte in message {
        *byte = next;
        next = next.wrapping_add(7);
    }
}

// The end of a message taken in portions of 1, 2, 3, .. bytes, at most `widest`, and again from 1.
fn cut(message: &[u8], widest: usize) -> Result<Hashed, Refusal> {
    let mut state = Hash::new();
    let mut rest = message;
    let mut width = 1;
    while !rest.is_empty() {
        let (portion, behind) = rest.split_at(width.min(rest.len()));
        state.update(portion)?;
        rest = behind;
        width = if width < widest { width + 1 } else { 1 };
    }
    state.finish()
}

fn whole(message: &[u8]) -> Result<Hashed, Refusal> {
    let mut state = Hash::new();
    state.update(message)?;
    state.finish()
}

// A digest and its blocks; zeros where they are refused.
fn line(to: Stdout, name: &str, answer: Result<Hashed, Refusal>) -> io::Result<()> {
    let hashed = answer.unwrap_or(NOT_HASHED);
    println!(to; " {name}{} blocks {}", Hex(&hashed.digest), hashed.blocks)
}

// The three ways.
fn three(to: Stdout, message: &[u8]) -> io::Result<()> {
    line(to, "one portion ", whole(message))?;
    line(to, "cut ", cut(message, 97))?;
    line(to, "one call ", digest(message))
}

// The three ways under a line.
fn headed(to: Stdout, name: &str, message: &[u8]) -> io::Result<()> {
    println!(to; "{name}")?;
    three(to, message)
}

// One million letters a.
fn letters() -> [u8; 1000000] {
    [b'a'; 1000000]
}

// FIPS 180-4's examples of one and two blocks and of one million letters, and the empty message.
fn examples(to: Stdout) -> io::Result<()> {
    headed(to, "the empty message", b"")?;
    headed(to, "abc", b"abc")?;
    headed(
        to,
        "448 bits",
        b"abcdbcdecdefdefgefghfghighijhijkijkljklmklmnlmnomnopnopq",
    )?;
    headed(
        to,
        "896 bits",
        b"abcdefghbcdefghicdefghijdefghijkefghijklfghijklmghijklmnhijklmnoijklmnopjklmnopqklmnopqrlmnopqrsmnopqrstnopqrstu",
    )?;
    headed(to, "one million letters a", &letters())
}

// A state that says how much it has taken.
fn at_count(taken: u64) -> Hash {
    Hash {
        taken,
        ..Hash::new()
    }
}

// A portion and then the end, from a state: both outcomes' numbers, and what the state has taken.
fn limit(to: Stdout, taken: u64, part: &[u8]) -> io::Result<()> {
    let mut state = at_count(taken);
    let portion = outcome_number(state.update(part));
    let end = state.finish();
    print!(to;
        "{taken} portion {portion} taken {} end {}",
        state.taken,
        outcome_number(end)
    )?;
    line(to, "", end)
}

// The message of the shared vectors of this length, if there is room for it.
fn shared(to: Stdout, space: &mut [u8], len: usize) -> io::Result<()> {
    let Some(message) = space.get_mut(..len) else {
        return Ok(());
    };
    fill(message, len);
    println!(to; "{len}")?;
    three(to, message)
}

fn limits(to: Stdout) -> io::Result<()> {
    limit(to, 2305843009213693948, b"abc")?;
    limit(to, 2305843009213693949, b"abc")?;
    limit(to, 2305843009213693951, b"")?;
    limit(to, 2305843009213693951, b"a")?;
    limit(to, 2305843009213693952, b"")?;
    limit(to, u64::MAX, b"abc")
}

pub fn digests(to: Stdout) -> io::Result<()> {
    examples(to)?;
    let mut space = [0u8; 1321];
    for len in 0..131 {
        shared(to, &mut space, len)?;
    }
    for len in [183, 184, 185, 247, 248, 249, 1321] {
        shared(to, &mut space, len)?;
    }
    limits(to)
}
