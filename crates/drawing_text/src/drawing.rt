// What `chain` prints of a drawing: a drawn chain in the planning program's form, a refusal or a clash.
ghost use Rattle.std.specs.Prelude.{◌≡◌, ◌≤◌, length};
ghost use Rattle.chain_theory.specs.Ways.{chain_codes};
ghost use Rattle.planning.specs.Output.{places, max_output, plan_text};
ghost use Rattle.decimal.specs.Steps.{Wrote};
ghost use Rattle.draw.specs.Drawing.{drawn_chain, leaves_of, drawing_of};
ghost use Rattle.lines.specs.Line.{line_of};
ghost use Rattle.drawing_text.specs.Heads.{found_of};
ghost use Rattle.drawing_text.specs.Text.{chain_text, ChainIn};

use crate::heads::found_in;
use crate::telling::{clash_lines, refused_by};
use base::{MAX_LEAVES, Rejection, put};
use draw::{Drawing, opened_leaves};
use file_head::read_head;
use lines::Line;

// Lays out the chain that was drawn of a file, and answers how many bytes that takes.
pub fn put_chain(
    file: &[u8],
    statement: [u8; 32],
    depth: u64,
    count: u64,
    codes: &[u64],
    out: &mut [u8],
) -> usize
    requires { (drawing_of file.now statement depth count places ≡ drawn_chain (length codes.now))
        × (codes.now ≡ chain_codes depth (leaves_of file.now statement depth count)) × (max_output ≤ length out.old) }
    ensures { Wrote out.old 0 (plan_text depth (leaves_of file.now statement depth count)) out.new result }
{
    let head = read_head(file).unwrap();
    let mut room = [0u64; MAX_LEAVES];
    let leaves = opened_leaves(file, &head, statement, &mut room);
    planning::put_plan(depth, leaves, codes, out)
}

// Lays a line out from the first byte on.
fn put_line(line: &Line, out: &mut [u8]) -> usize
    requires { 8192 ≤ length out.old }
    ensures { Wrote out.old 0 (line_of line.now) out.new result }
{
    let text = line.as_bytes();
    put(out, 0, text);
    text.len()
}

// Lays out all that `chain` prints of a drawing of a file, and answers how many bytes that takes.
pub fn put_drawing(
    file: &[u8],
    statement: [u8; 32],
    depth: u64,
    count: u64,
    drawing: &Result<Drawing, Rejection>,
    list: &[u64],
    out: &mut [u8],
) -> usize
    requires { ChainIn drawing.now list.now file.now statement depth count × (max_output ≤ length out.old) }
    ensures { Wrote out.old 0
        (chain_text drawing.now depth count (found_of file.now statement) (length file.now)
        (plan_text depth (leaves_of file.now statement depth count))) out.new result }
{
    match drawing {
        Ok(Drawing::Chain(nodes)) => {
            let used = *nodes as usize;
            put_chain(file, statement, depth, count, &list[..used], out)
        }
        Ok(Drawing::Clash(clash)) => put_line(&clash_lines(clash), out),
        Err(rejection) => {
            let found = found_in(file, statement);
            put_line(
                &refused_by(*rejection, file.len(), found, depth, count),
                out,
            )
        }
    }
}
