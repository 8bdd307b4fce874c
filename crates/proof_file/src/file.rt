// Document 01's rows 'File': the check of any bytes as a proof of a wanted statement, depth and count.
ghost use Rattle.std.specs.Prelude.{◌≡◌, ◌+◌, ◌≤◌, [], ◌∷◌, not, ltb, length};
ghost use Rattle.base.specs.Number.{code_of, outcome_number};
ghost use Rattle.base.specs.Row.{first_of};
ghost use Rattle.file_head.specs.Head.{length_from, statement_at};
ghost use Rattle.proof_file.specs.FileCheck.{openings_from, wanted, file_check};

use base::{Refusal, Rejection, label_at, same};
use file_head::{Head, challenge_leaf, read_head};
use labelling::Tree;
use opening_check::right;

// Each opening in challenge order: 14, 15 with its number.
fn check_openings(bytes: &[u8], head: &Head, statement: [u8; 32]) -> Result<(), Rejection>
    requires bytes_len { (length bytes.now ≡ length_from head.now.depth head.now.count head.now.end)
        × (statement ≡ statement_at bytes.now head.now.end) }
    ensures { code_of result ≡ openings_from head.now.edition bytes.now head.now.depth head.now.end 1 head.now.count }
{
    let root = label_at(bytes, head.end + 32);
    let tree = Tree {
        statement,
        edition: head.edition,
        depth: head.depth,
    };
    for i in 1..=head.count {
        let leaf = challenge_leaf(head.edition, head.depth, statement, root, i);
        let start = head.opening_start(i);
        let end = start + head.opening_size();
        if let Err(refusal) = right(&tree, leaf, root, &bytes[start..end]) {
            return Err(Rejection {
                refusal,
                opening: i as u8,
            });
        }
    }
    Ok(())
}

// Whether statement, depth and count are those wanted.
fn is_wanted(bytes: &[u8], head: &Head, statement: [u8; 32], depth: u64, count: u64) -> bool
    requires { head.now.end + 32 ≤ length bytes.now }
    ensures { result ≡ wanted (statement_at bytes.now head.now.end) head.now.depth head.now.count statement depth count }
{
    head.depth == depth && head.count == count && same(&label_at(bytes, head.end), &statement)
}

// 10; 13; 9: the length, and what is wanted.
fn check_rest(
    bytes: &[u8],
    head: &Head,
    statement: [u8; 32],
    depth: u64,
    count: u64,
) -> Result<(), Refusal>
    ensures { outcome_number result ≡ first_of
        ((ltb (length bytes.now) (length_from head.now.depth head.now.count head.now.end), 10)
        ∷ (ltb (length_from head.now.depth head.now.count head.now.end) (length bytes.now), 13)
        ∷ (not (wanted (statement_at bytes.now head.now.end) head.now.depth head.now.count statement depth count), 9)
        ∷ []) }
{
    let size = head.file_length();
    if bytes.len() < size {
        return Err(Refusal::BytesEnd);
    }
    if size < bytes.len() {
        return Err(Refusal::BytesLeft);
    }
    if !is_wanted(bytes, head, statement, depth, count) {
        return Err(Refusal::NotWanted);
    }
    Ok(())
}

// The check of a file.
pub fn check_file(
    bytes: &[u8],
    statement: [u8; 32],
    depth: u64,
    count: u64,
) -> Result<(), Rejection>
    ensures { code_of result ≡ file_check bytes.now statement depth count }
{
    let head = read_head(bytes)?;
    check_rest(bytes, &head, statement, depth, count)?;
    check_openings(bytes, &head, statement)
}

// Its answer as one number.
pub fn check_file_code(bytes: &[u8], statement: [u8; 32], depth: u64, count: u64) -> u64
    ensures { result ≡ file_check bytes.now statement depth count }
{
    base::code(check_file(bytes, statement, depth, count))
}
