// The answer to an input.
ghost use Rattle.std.specs.Prelude.{◌≡◌, ◌≤◌, leb, length};
ghost use Rattle.base.specs.Bytes.{written};
ghost use Rattle.base.specs.Choice.{pick};
ghost use Rattle.chain_theory.specs.Ways.{chain_codes};
ghost use Rattle.chain.specs.PlanRow.{plan_row};
ghost use Rattle.planning.specs.Output.{places, max_output, answer_text, plan_text, printed};
ghost use Rattle.decimal.specs.Steps.{Wrote};

use crate::texts::{Node, put_head, put_node, put_refused};
use base::{MAX_CHAIN, MAX_INPUT, Refusal};
use decimal::{is_readable, read_numbers};

// Room for all that is ever printed: specs/Output.antt.
pub const MAX_OUTPUT: usize = 82 + 42 * MAX_CHAIN;

// Lays out the head and the nodes of a plan.
pub fn put_plan(depth: u64, leaves: &[u64], codes: &[u64], out: &mut [u8]) -> usize
    requires { (plan_row depth leaves.now places ≡ 0) × ((codes.now ≡ chain_codes depth leaves.now) × (max_output ≤ length out.old)) }
    ensures { Wrote out.old 0 (answer_text depth leaves.now 0) out.new result }
{
    let mut at = put_head(
        out,
        depth,
        chain::different_leaves(leaves),
        codes.len() as u64,
    );
    for code in codes {
        at = put_node(out, at, Node::of_code(*code));
    }
    at
}

// Plans, and lays out the plan or the refusal.
fn put_answer(depth: u64, leaves: &[u64], out: &mut [u8]) -> usize
    requires { max_output ≤ length out.old }
    ensures { Wrote out.old 0 (plan_text depth leaves.now) out.new result }
{
    let mut codes = [0u64; MAX_CHAIN];
    match chain::plan(depth, leaves, &mut codes) {
        Ok(count) => put_plan(depth, leaves, &codes[..count as usize], out),
        Err(why) => put_refused(out, why),
    }
}

// Lays out all that the planning program prints on an input, from the output's first byte on, and answers how many bytes
// they are. An output with fewer than 287,992 bytes is left as it was, and the answer is 0.
pub fn answer(input: &[u8], out: &mut [u8]) -> usize
    ensures value { result ≡ pick (leb max_output (length out.old)) (length (printed input.now)) 0 }
    ensures out_after { out.new
        ≡ pick (leb max_output (length out.old)) (written out.old 0 (printed input.now))
        out.old }
{
    if out.len() < MAX_OUTPUT {
        return 0;
    }
    if MAX_INPUT < input.len() || !is_readable(input) {
        return put_refused(out, Refusal::Input);
    }
    let numbers = read_numbers(input);
    match numbers.list[..numbers.count].split_first() {
        Some((depth, leaves)) => put_answer(*depth, leaves, out),
        None => put_refused(out, Refusal::Input),
    }
}
