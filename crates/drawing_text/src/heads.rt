// What a file's head says.
ghost use Rattle.std.specs.Prelude.{◌≡◌};
ghost use Rattle.file_head.specs.Head.{numbers};
ghost use Rattle.drawing_text.specs.Heads.{report_in, found_of, at_least};

use crate::Found;
use base::same;
use file_head::{Head, read_head};

// Whether the statement that follows the numbers is this one.
fn is_report(file: &[u8], statement: [u8; 32], head: &Head) -> bool
    ensures { result ≡ report_in file.now statement (numbers head.now.edition head.now.depth head.now.count head.now.end) }
{
    let end = head.end + 32;
    end <= file.len() && same(&file[head.end..end], &statement)
}

// Edition, depth and count of a head, and whether the file is of this statement.
#[tactic(auto, unfolding(crate::specs::Heads::found_of, crate::specs::Heads::of_report))]
pub fn found_in(file: &[u8], statement: [u8; 32]) -> Found
    ensures { result ≡ found_of file.now statement }
{
    match read_head(file) {
        Ok(head) => Found {
            edition: head.edition,
            depth: head.depth,
            count: head.count,
            same_report: is_report(file, statement, &head),
        },
        Err(_) => Found {
            edition: 0,
            depth: 0,
            count: 0,
            same_report: false,
        },
    }
}

// The larger of two numbers: at least so much is wanted.
pub fn larger(x: u64, y: u64) -> u64
    ensures { result ≡ at_least x y }
{
    x.max(y)
}
