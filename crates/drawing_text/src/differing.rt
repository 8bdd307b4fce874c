// Refusal 9 in words: what of a file is not as wanted, one line each.
ghost use Rattle.std.specs.Prelude.{◌≡◌, ◌≤◌, length};
ghost use Rattle.lines.specs.Line.{IsInRoom, line_of};
ghost use Rattle.drawing_text.specs.Differ.{report_text, other_text, depth_text, count_text, differ_text};

use crate::Found;
use crate::sentences::sentence;
use lines::Line;

#[tactic(auto, unfolding(crate::specs::Differ::report_text))]
fn report_line(same: bool) -> Line
    ensures value { line_of result ≡ report_text same }
    ensures in_room { IsInRoom result }
{
    if same {
        return Line::new();
    }
    sentence(b"the proof is not of this report\n")
}

// A number and the one wanted, each after its words; nothing where they are the same.
fn other(a: &[u8], x: u64, b: &[u8], y: u64) -> Line
    requires { (length a.now ≤ 100) × (length b.now ≤ 100) }
    ensures value { line_of result ≡ other_text a.now x b.now y }
    ensures in_room { IsInRoom result }
{
    if x == y {
        return Line::new();
    }
    Line::new().add_field(a, x).add_field(b, y).add(b"\n")
}

#[tactic(auto, unfolding(crate::specs::Differ::depth_text))]
fn depth_line(own: u64, wanted: u64) -> Line
    ensures value { line_of result ≡ depth_text own wanted }
    ensures in_room { IsInRoom result }
{
    other(b"the proof's depth is ", own, b", not ", wanted)
}

#[tactic(auto, unfolding(crate::specs::Differ::count_text))]
fn count_line(own: u64, wanted: u64) -> Line
    ensures value { line_of result ≡ count_text own wanted }
    ensures in_room { IsInRoom result }
{
    other(b"the proof has ", own, b" challenges, not ", wanted)
}

// By the depth and count wanted.
pub fn differ(found: Found, depth: u64, count: u64) -> Line
    ensures value { line_of result ≡ differ_text found depth count }
    ensures in_room { IsInRoom result }
{
    let report = report_line(found.same_report);
    let depths = depth_line(found.depth, depth);
    let counts = count_line(found.count, count);
    report.add_line(&depths).add_line(&counts)
}
