// What `info` prints: all that a file's head and size say.
ghost use Rattle.std.specs.Prelude.{◌≡◌, ◌+◌, ◌≤◌, length};
ghost use Rattle.base.specs.Number.{outcome_number};
ghost use Rattle.file_head.specs.Head.{numbers};
ghost use Rattle.lines.specs.Line.{IsInRoom, line_of};
ghost use Rattle.drawing_text.specs.Info.{size_row, shape_refusal, numbers_text, labels_text, rest_text, known_from, known_text, end_text, info_text};

use crate::sentences::plain_refusal;
use base::{Refusal, label_at, number};
use file_head::{Head, read_head};
use lines::{Line, fact, fact_bytes, rejected};

// Refuses a size that is not the one that the file's numbers ask for.
fn check_size(size: usize, whole: usize) -> Result<(), Refusal>
    ensures { outcome_number result ≡ size_row size whole }
{
    if size < whole {
        return Err(Refusal::BytesEnd);
    }
    if whole < size {
        return Err(Refusal::BytesLeft);
    }
    Ok(())
}

// The refusal by head and size, whatever is wanted.
#[tactic(auto, unfolding(crate::specs::Info::shape_refusal))]
pub fn check_shape(file: &[u8]) -> Result<(), Refusal>
    ensures { outcome_number result ≡ shape_refusal file.now }
{
    let head = read_head(file)?;
    check_size(file.len(), head.file_length())
}

fn numbers_lines(edition: u64, n: u64, t: u64) -> Line
    ensures value { line_of result ≡ numbers_text edition n t }
    ensures in_room { IsInRoom result }
{
    fact(b"edition ", edition)
        .add_line(&fact(b"depth ", n))
        .add_line(&fact(b"challenges ", t))
}

// Statement and root.
fn labels_lines(file: &[u8], at: usize) -> Line
    requires { (at ≤ 6) × (at + 64 ≤ length file.now) }
    ensures value { line_of result ≡ labels_text file.now at }
    ensures in_room { IsInRoom result }
{
    let statement = label_at(file, at);
    let root = label_at(file, at + 32);
    fact_bytes(b"statement ", &statement).add_line(&fact_bytes(b"root ", &root))
}

// Statement and root where the size is what the numbers ask for, and the size.
fn rest_lines(file: &[u8], whole: usize, at: usize) -> Line
    requires { (at ≤ 6) × (at + 64 ≤ whole) }
    ensures value { line_of result ≡ rest_text file.now whole at }
    ensures in_room { IsInRoom result }
{
    let size = fact(b"size ", file.len() as u64);
    if file.len() == whole {
        return labels_lines(file, at).add_line(&size);
    }
    size
}

// What a head that can be read says.
fn known_lines(file: &[u8], head: &Head) -> Line
    ensures value { line_of result ≡ known_from file.now (numbers head.now.edition head.now.depth head.now.count head.now.end) }
    ensures in_room { IsInRoom result }
{
    let whole = head.file_length();
    numbers_lines(head.edition, head.depth, head.count).add_line(&rest_lines(file, whole, head.end))
}

#[tactic(auto, unfolding(crate::specs::Info::known_text))]
fn known(file: &[u8]) -> Line
    ensures value { line_of result ≡ known_text file.now }
    ensures in_room { IsInRoom result }
{
    match read_head(file) {
        Ok(head) => known_lines(file, &head),
        Err(_) => Line::new(),
    }
}

// A refusal in plain words and by its number; nothing where there is none.
fn end_lines(shape: Result<(), Refusal>, size: usize) -> Line
    ensures value { line_of result ≡ end_text (outcome_number shape) size }
    ensures in_room { IsInRoom result }
{
    match shape {
        Ok(()) => Line::new(),
        Err(why) => plain_refusal(why, size).add_line(&rejected(number(why), 0)),
    }
}

// All that `info` prints of a file.
pub fn info(file: &[u8]) -> Line
    ensures value { line_of result ≡ info_text file.now }
    ensures in_room { IsInRoom result }
{
    let end = end_lines(check_shape(file), file.len());
    known(file).add_line(&end)
}
