// The parts of a line: its first word, an option with its values, and the operands.
ghost use Rattle.std.specs.Prelude.{◌≡◌};
ghost use Rattle.words.specs.Parts.{place_of, option_of, option_size, parts_with, parts_of, report_in, proof_in, Placed};

use crate::kinds::{is_word, kind_of};
use crate::parting::{word, word_count};
use crate::{Kind, Parts};

// The place of an option of so many words.
#[tactic(auto, unfolding(crate::specs::Parts::place_of))]
fn place_of(name: &[u8], size: usize, line: &[u8], all: usize) -> Option<usize>
    ensures { result ≡ place_of name.now size line.now all }
{
    if all <= size {
        return None;
    }
    if is_word(word(line, 1), name) {
        return Some(1);
    }
    let last = all - size;
    if is_word(word(line, last), name) {
        return Some(last);
    }
    None
}

// The place of the option of a first word.
fn option_of(kind: Option<Kind>, line: &[u8], all: usize) -> Option<usize>
    ensures { result ≡ option_of kind line.now all }
{
    match kind {
        Some(Kind::Seal) => place_of(b"--every", 2, line, all),
        Some(Kind::Verify) => place_of(b"--at-least", 3, line, all),
        _ => None,
    }
}

// How many words the option is.
fn option_size(kind: Option<Kind>, option: Option<usize>) -> usize
    ensures { result ≡ option_size kind option }
{
    match (option, kind) {
        (None, _) => 0,
        (Some(_), Some(Kind::Seal)) => 2,
        (Some(_), _) => 3,
    }
}

#[tactic(auto, unfolding(crate::specs::Parts::parts_with))]
fn parts_with(kind: Option<Kind>, all: usize, option: Option<usize>) -> Parts
    ensures { result ≡ parts_with kind all option }
{
    let size = option_size(kind, option);
    Parts {
        kind,
        all,
        option,
        first: if option == Some(1) { 1 + size } else { 1 },
        count: all.saturating_sub(1 + size),
    }
}

#[tactic(auto, using(crate::proofs::PartsLaws::parts_placed), unfolding(crate::specs::Parts::parts_of))]
pub fn parts(line: &[u8]) -> Parts
    ensures value { result ≡ parts_of line.now }
    ensures room { Placed result }
{
    let all = word_count(line);
    let kind = kind_of(word(line, 0));
    parts_with(kind, all, option_of(kind, line, all))
}

// REPORT; empty for `info`, which has none.
#[tactic(auto, unfolding(crate::specs::Parts::report_in))]
pub fn report(line: &[u8]) -> &[u8]
    ensures { result.now ≡ report_in line.now }
{
    let p = parts(line);
    match p.kind {
        Some(Kind::Info) => &[],
        _ => word(line, p.first),
    }
}

// PROOF.
#[tactic(auto, unfolding(crate::specs::Parts::proof_in))]
pub fn proof(line: &[u8]) -> &[u8]
    ensures { result.now ≡ proof_in line.now }
{
    let p = parts(line);
    match p.kind {
        Some(Kind::Info) => word(line, p.first),
        _ => word(line, p.first + 1),
    }
}
