// Document 01, 'Drawing the chain': all file checks, then the comparison, then the chain.
ghost use Rattle.std.specs.Prelude.{◌≡◌, length, IfOk};
ghost use Rattle.proof_file.specs.FileCheck.{file_check};
ghost use Rattle.draw.specs.Drawing.{drawing_answer, drawing_of, drawn_list, HasInputs, first_drawn, second_drawn};

use crate::Drawing;
use crate::leaves::opened_leaves;
use base::{MAX_LEAVES, Rejection};
use chain::plan;
use compare::compare;
use file_head::read_head;
use labelling::Tree;
use proof_file::check_file;

// Drawing from a file that is accepted.
fn draw_accepted(
    file: &[u8],
    statement: [u8; 32],
    depth: u64,
    count: u64,
    list: &mut [u64],
) -> Result<Drawing, Rejection>
    requires { file_check file.now statement depth count ≡ 0 }
    ensures drawing_value { drawing_answer result ≡ drawing_of file.now statement depth count (length list.old) }
    ensures inputs_value { IfOk result
        (HasInputs (first_drawn file.now statement depth count (length list.old)) (second_drawn file.now statement depth count (length list.old))) }
    ensures list_after { list.new ≡ drawn_list file.now statement depth count list.old }
{
    let head = read_head(file)?;
    let tree = Tree {
        statement,
        edition: head.edition,
        depth,
    };
    let mut room = [0u64; MAX_LEAVES];
    let leaves = opened_leaves(file, &head, statement, &mut room);
    match compare(&tree, leaves, &file[head.end + 64..])? {
        Some(clash) => Ok(Drawing::Clash(clash)),
        None => Ok(Drawing::Chain(plan(depth, leaves, list)?)),
    }
}

// Draws the chain of a proof into the list, from its first place on; the list is untouched if that is refused or a pair disagrees.
#[tactic(auto, using(crate::proofs::AcceptedFile::answer_refused, crate::proofs::AcceptedFile::list_refused))]
pub fn draw(
    file: &[u8],
    statement: [u8; 32],
    depth: u64,
    count: u64,
    list: &mut [u64],
) -> Result<Drawing, Rejection>
    ensures drawing_value { drawing_answer result ≡ drawing_of file.now statement depth count (length list.old) }
    ensures inputs_value { IfOk result
        (HasInputs (first_drawn file.now statement depth count (length list.old)) (second_drawn file.now statement depth count (length list.old))) }
    ensures list_after { list.new ≡ drawn_list file.now statement depth count list.old }
{
    check_file(file, statement, depth, count)?;
    draw_accepted(file, statement, depth, count, list)
}
