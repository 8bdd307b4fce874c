// Texts, laid into the output from a place on.
ghost use Rattle.std.specs.Prelude.{◌≡◌, ◌+◌, ◌^◌, ◌≤◌, ◌<◌, length};
ghost use Rattle.base.specs.Number.{number_of};
ghost use Rattle.tree.specs.Nodes.{node};
ghost use Rattle.planning.specs.Output.{refused_text, head_text, node_text};
ghost use Rattle.decimal.specs.Steps.{Wrote};

use base::{Refusal, number};
use decimal::{end_line, put_field};

// A node by its level and position.
#[derive(Clone, Copy, Debug, PartialEq, Eq)]
pub struct Node {
    pub level: u64,
    pub position: u64,
}

impl Node {
    // The node of a code, 2^l + p.
    pub fn of_code(code: u64) -> Node
        requires { 0 < code }
        ensures { (code ≡ 2 ^ result.level + result.position) × (result.position < 2 ^ result.level) }
    {
        let level = u64::from(code.ilog2());
        Node {
            level,
            position: code - (1 << level),
        }
    }
}

pub fn put_refused(out: &mut [u8], why: Refusal) -> usize
    requires { 29 ≤ length out.old }
    ensures { Wrote out.old 0 (refused_text (number_of why)) out.new result }
{
    let at = put_field(out, 0, b"refused ", number(why));
    end_line(out, at)
}

pub fn put_head(out: &mut [u8], depth: u64, different: u64, count: u64) -> usize
    requires { 82 ≤ length out.old }
    ensures { Wrote out.old 0 (head_text depth different count) out.new result }
{
    let first = put_field(out, 0, b"depth ", depth);
    let second = put_field(out, first, b" leaves ", different);
    let third = put_field(out, second, b" chain ", count);
    end_line(out, third)
}

pub fn put_node(out: &mut [u8], at: usize, target: Node) -> usize
    requires { at + 42 ≤ length out.old }
    ensures { Wrote out.old at (node_text (node target.level target.position)) out.new result }
{
    let first = put_field(out, at, b"", target.level);
    let second = put_field(out, first, b" ", target.position);
    end_line(out, second)
}
