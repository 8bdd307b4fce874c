// Challenges, the head, and the checks of openings and files.
ghost use Rattle.std.specs.Prelude.{◌≡◌, length};
ghost use Rattle.opening_check.specs.OpeningCheck.{opening_row};
ghost use Rattle.file_head.specs.Challenge.{challenge_row, challenged};
ghost use Rattle.file_head.specs.Layout.{head_row, head_written};
ghost use Rattle.file_head.specs.Head.{head_refusal, head_edition, head_depth, head_count, head_of, part_start, part_length};
ghost use Rattle.proof_file.specs.FileCheck.{file_check};

use base::outcome_number;
use labelling::Tree;
use proof_file::Place;

#[repr(C)]
#[derive(Clone, Copy)]
pub struct Challenged {
    pub refusal: u64,
    pub leaf: u64,
}

// The leaf of challenge i, from 1, or the refusal beside 0.
pub fn mastdock_challenge(
    edition: u64,
    statement: &[u8; 32],
    root: &[u8; 32],
    depth: u64,
    i: u64,
) -> Challenged
    ensures refusal_value { result.refusal ≡ challenge_row edition depth i }
    ensures leaf_value { result.leaf ≡ challenged edition depth statement.now root.now i }
{
    let picked = file_head::challenge(edition, depth, *statement, *root, i);
    Challenged {
        refusal: outcome_number(picked),
        leaf: picked.unwrap_or(0),
    }
}

// Writes the head of a file of `count` openings of an edition.
pub fn mastdock_write_head(
    edition: u64,
    statement: &[u8; 32],
    root: &[u8; 32],
    depth: u64,
    count: u64,
    file: &mut [u8],
) -> u64
    ensures value { result ≡ head_row edition depth count (length file.old) }
    ensures file_after { file.new ≡ head_written edition statement.now root.now depth count file.old }
{
    outcome_number(file_head::write_head(edition, *statement, *root, depth, count, file))
}

#[repr(C)]
#[derive(Clone, Copy)]
pub struct HeadRead {
    pub refusal: u64,
    pub edition: u64,
    pub depth: u64,
    pub count: u64,
}

// Reads edition, depth and count out of a file's head.
pub fn mastdock_read_head(file: &[u8]) -> HeadRead
    ensures refusal_value { result.refusal ≡ head_refusal (head_of file.now) }
    ensures edition_value { result.edition ≡ head_edition (head_of file.now) }
    ensures depth_value { result.depth ≡ head_depth (head_of file.now) }
    ensures count_value { result.count ≡ head_count (head_of file.now) }
{
    match file_head::read_head(file) {
        Ok(head) => HeadRead {
            refusal: 0,
            edition: head.edition,
            depth: head.depth,
            count: head.count,
        },
        Err(why) => HeadRead {
            refusal: base::number(why),
            edition: 0,
            depth: 0,
            count: 0,
        },
    }
}

// Where opening i, from 1, lies in a file; 0 and 0 where there is none.
pub fn mastdock_opening_place(file: &[u8], i: u64) -> Place
    ensures offset_value { result.offset ≡ part_start file.now i (head_of file.now) }
    ensures length_value { result.length ≡ part_length file.now i (head_of file.now) }
{
    proof_file::opening_place(file, i)
}

// One opening of an edition checked: the refusal alone.
pub fn mastdock_check_opening(
    edition: u64,
    statement: &[u8; 32],
    root: &[u8; 32],
    depth: u64,
    leaf: u64,
    opening: &[u8],
) -> u64
    ensures { result ≡ opening_row edition statement.now depth leaf root.now opening.now }
{
    let tree = Tree {
        statement: *statement,
        edition,
        depth,
    };
    outcome_number(opening_check::check_opening(&tree, leaf, *root, opening))
}

// A file checked, by the edition that its head says: 256 × refusal + opening, or 0 if accepted.
pub fn mastdock_check_file(file: &[u8], statement: &[u8; 32], depth: u64, count: u64) -> u64
    ensures { result ≡ file_check file.now statement.now depth count }
{
    proof_file::check_file_code(file, *statement, depth, count)
}
