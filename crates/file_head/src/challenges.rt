// Document 01, 'Challenges and the file': the leaf that a challenge picks.
ghost use Rattle.std.specs.Prelude.{◌≡◌, ◌≤◌, take};
ghost use Rattle.std.specs.Result.{result_unwrap_or};
ghost use Rattle.base.specs.Limits.{max_depth};
ghost use Rattle.base.specs.Number.{outcome_number};
ghost use Rattle.sha256.specs.Digest.{digest};
ghost use Rattle.file_head.specs.Challenge.{challenge_input, big_endian_value, challenge_leaf, challenge_row, challenged};

use base::{MAX_CHALLENGES, MAX_DEPTH, MAX_EDITION, Refusal, beyond, big_endian, put};

// The hash of challenge i: over the statement, the word, the root and i in 4 bytes.
fn challenge_hash(edition: u64, depth: u64, statement: [u8; 32], root: [u8; 32], i: u64) -> [u8; 32]
    ensures { result ≡ digest (challenge_input edition depth statement root i) }
{
    let number = big_endian(i);
    let mut input = [0u8; 77];
    put(&mut input, 0, &statement);
    put(&mut input, 32, b"challenge");
    put(&mut input, 41, &root);
    put(&mut input, 73, &number[4..]);
    let hashed = sha256::digest(&input).unwrap();
    hashed.digest
}

// The first eight bytes as a number.
fn first_word(bytes: [u8; 32]) -> u64
    ensures { result ≡ big_endian_value (take 8 bytes) }
{
    let mut word = [0u8; 8];
    word.copy_from_slice(&bytes[..8]);
    u64::from_be_bytes(word)
}

// The leaf of challenge i at a depth that its callers know.
pub fn challenge_leaf(edition: u64, depth: u64, statement: [u8; 32], root: [u8; 32], i: u64) -> u64
    requires { (1 ≤ depth) × (depth ≤ max_depth) }
    ensures { result ≡ challenge_leaf edition depth statement root i }
{
    let bytes = challenge_hash(edition, depth, statement, root, i);
    first_word(bytes) >> (64 - depth)
}

// Row 'A challenge', and the first three of row 'Writing the file's head', where the number is the count.
#[tactic(auto, unfolding(crate::specs::Challenge::challenge_row))]
pub fn check_numbers(edition: u64, depth: u64, number: u64) -> Result<(), Refusal>
    ensures { outcome_number result ≡ challenge_row edition depth number }
{
    if beyond(MAX_EDITION, edition) {
        return Err(Refusal::Edition);
    }
    if beyond(MAX_DEPTH, depth) {
        return Err(Refusal::Depth);
    }
    if beyond(MAX_CHALLENGES, number) {
        return Err(Refusal::Count);
    }
    Ok(())
}

// The leaf of challenge i, from 1.
#[tactic(auto, unfolding(crate::specs::Challenge::challenged, crate::specs::Challenge::challenge_row))]
pub fn challenge(
    edition: u64,
    depth: u64,
    statement: [u8; 32],
    root: [u8; 32],
    i: u64,
) -> Result<u64, Refusal>
    ensures outcome_value { outcome_number result ≡ challenge_row edition depth i }
    ensures leaf_value { result_unwrap_or result 0 ≡ challenged edition depth statement root i }
{
    check_numbers(edition, depth, i)?;
    Ok(challenge_leaf(edition, depth, statement, root, i))
}
