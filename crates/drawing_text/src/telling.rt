// The lines that are told of a drawing.
ghost use Rattle.std.specs.Prelude.{◌≡◌};
ghost use Rattle.base.specs.Number.{number_of};
ghost use Rattle.lines.specs.Line.{IsInRoom, line_of};
ghost use Rattle.drawing_text.specs.Verdict.{why_text, refusal_text, edition_text, wanted_text, no_chain_text, judged_text, verdict_text, clash_lines};

use crate::Found;
use crate::differing::differ;
use crate::sentences::{plain_refusal, sentence, told_as};
use base::{Refusal, Rejection, number};
use compare::Clash;
use draw::Drawing;
use lines::{Line, accepted, clash, fact, fact_bytes, rejected};

// Why a file of so many bytes is refused: what differs from the depth and count wanted, else in plain words.
#[tactic(auto, unfolding(crate::specs::Verdict::why_text))]
fn why_refused(why: Refusal, size: usize, found: Found, depth: u64, count: u64) -> Line
    ensures value { line_of result ≡ why_text (number_of why) size found depth count }
    ensures in_room { IsInRoom result }
{
    match why {
        Refusal::NotWanted => differ(found, depth, count),
        _ => plain_refusal(why, size),
    }
}

// A refusal: why, then its line.
pub fn refused_by(rejection: Rejection, size: usize, found: Found, depth: u64, count: u64) -> Line
    ensures value { line_of result ≡ refusal_text (number_of rejection.refusal) rejection.opening size found depth count }
    ensures in_room { IsInRoom result }
{
    let refusal = number(rejection.refusal);
    let opening = u64::from(rejection.opening);
    why_refused(rejection.refusal, size, found, depth, count).add_line(&rejected(refusal, opening))
}

// The same, by document 01's number, or any other, and the opening's.
pub fn refused(number: u64, opening: u64, size: usize, found: Found, depth: u64, count: u64) -> Line
    ensures value { line_of result ≡ refusal_text number opening size found depth count }
    ensures in_room { IsInRoom result }
{
    why_refused(told_as(number), size, found, depth, count).add_line(&rejected(number, opening))
}

// The edition by which a file was accepted; nothing of one that is refused.
fn edition_line(drawing: &Result<Drawing, Rejection>, edition: u64) -> Line
    ensures value { line_of result ≡ edition_text drawing.now edition }
    ensures in_room { IsInRoom result }
{
    match drawing {
        Ok(_) => fact(b"edition ", edition),
        Err(_) => Line::new(),
    }
}

// How much work is wanted.
fn wanted(depth: u64, count: u64) -> Line
    ensures value { line_of result ≡ wanted_text depth count }
    ensures in_room { IsInRoom result }
{
    if depth == 0 {
        return Line::new();
    }
    fact(b"depth ", depth).add_line(&fact(b"challenges ", count))
}

// A clash: the pair and the level, and both inputs.
pub fn clash_lines(found: &Clash) -> Line
    ensures value { line_of result ≡ clash_lines found.now }
    ensures in_room { IsInRoom result }
{
    let pair = found.pair;
    clash(pair.first, pair.second, pair.level)
        .add_line(&fact_bytes(b"first ", &found.first))
        .add_line(&fact_bytes(b"second ", &found.second))
}

// An accepted file whose openings clash.
fn no_chain(depth: u64, count: u64) -> Line
    ensures value { line_of result ≡ no_chain_text depth count }
    ensures in_room { IsInRoom result }
{
    sentence(
        b"two openings clash, so there is no chain; 'mastdock chain' shows both inputs\n",
    ).add_line(&accepted(depth, count, 0))
}

// Refused or accepted.
fn judged(
    drawing: &Result<Drawing, Rejection>,
    depth: u64,
    count: u64,
    found: Found,
    size: usize,
) -> Line
    ensures value { line_of result ≡ judged_text drawing.now depth count found size }
    ensures in_room { IsInRoom result }
{
    match *drawing {
        Ok(Drawing::Chain(nodes)) => accepted(depth, count, nodes),
        Ok(Drawing::Clash(_)) => no_chain(depth, count),
        Err(rejection) => refused_by(rejection, size, found, depth, count),
    }
}

// All that `verify` prints of a drawing, by the depth and count wanted, what the file's head says and the file's size.
pub fn verdict(
    drawing: &Result<Drawing, Rejection>,
    depth: u64,
    count: u64,
    found: Found,
    size: usize,
) -> Line
    ensures value { line_of result ≡ verdict_text drawing.now depth count found size }
    ensures in_room { IsInRoom result }
{
    edition_line(drawing, found.edition)
        .add_line(&wanted(depth, count))
        .add_line(&judged(drawing, depth, count, found, size))
}
