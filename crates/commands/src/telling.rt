// Verdict, chain, clash and facts written to a stream, each in one piece.
ghost use Rattle.std.specs.Prelude.{◌≡◌};
ghost use Rattle.base.specs.Bytes.{zeros};
ghost use Rattle.planning.specs.Output.{places, max_output};

use crate::UNTRIED;
use base::MAX_CHAIN;
use compare::Clash;
use descriptors::Stream;
use drawing_text::{
    chain_status, clash_lines, found_in, info, info_status, put_drawing, verdict, verdict_status,
};
use lines::{complain, say, say_text};
use planning::MAX_OUTPUT;

// Places for the longest chain.
fn empty_list() -> [u64; MAX_CHAIN]
    ensures { result ≡ zeros places }
{
    [0u64; MAX_CHAIN]
}

// As much as is ever printed of a chain.
fn empty_text() -> [u8; MAX_OUTPUT]
    ensures { result ≡ zeros max_output }
{
    [0u8; MAX_OUTPUT]
}

// Writes a text to `out`; if that fails, one line on `err` says so. The status is what was told, or 2.
fn write_out(text: &[u8], status: u8, out: Stream<'_>, err: Stream<'_>) -> u8 {
    if say_text(out, text) {
        return status;
    }
    complain(err, b"standard output", b"could not be written whole");
    UNTRIED
}

// Prints `verdict_text` of drawing_text's specs/Verdict.antt: of the drawing, the depth and count wanted, what the head says and the file's
// size.
pub fn tell_verdict(
    file: &[u8],
    statement: [u8; 32],
    depth: u64,
    count: u64,
    out: Stream<'_>,
    err: Stream<'_>,
) -> u8 {
    let mut list = empty_list();
    let drawing = draw::draw(file, statement, depth, count, &mut list);
    let found = found_in(file, statement);
    let line = verdict(&drawing, depth, count, found, file.len());
    write_out(line.as_bytes(), verdict_status(&drawing), out, err)
}

// Prints `chain_text` of drawing_text's specs/Text.antt: of the drawing by the depth and count of the head.
pub fn tell_chain(file: &[u8], statement: [u8; 32], out: Stream<'_>, err: Stream<'_>) -> u8 {
    let found = found_in(file, statement);
    let depth = found.depth;
    let count = found.count;
    let mut list = empty_list();
    let drawing = draw::draw(file, statement, depth, count, &mut list);
    let mut text = empty_text();
    let length = put_drawing(file, statement, depth, count, &drawing, &list, &mut text);
    match text.get(..length) {
        Some(told) => write_out(told, chain_status(&drawing), out, err),
        None => UNTRIED,
    }
}

// Prints `info_text` of drawing_text's specs/Info.antt.
pub fn tell_info(file: &[u8], out: Stream<'_>, err: Stream<'_>) -> u8 {
    write_out(info(file).as_bytes(), info_status(file), out, err)
}

// Prints `clash_lines` of drawing_text's specs/Verdict.antt.
pub fn say_clash(clash: &Clash, out: Stream<'_>) {
    say(out, &clash_lines(clash));
}
