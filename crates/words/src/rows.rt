// What can be wrong with the words.
ghost use Rattle.std.specs.Prelude.{◌≡◌};
ghost use Rattle.words.specs.Orders.{fewest, most, word_row, path_row, paths_row};

use crate::{Kind, Parts, Problem};

fn fewest_operands(kind: Option<Kind>) -> usize
    ensures { result ≡ fewest kind }
{
    match kind {
        Some(Kind::Seal) => 3,
        Some(Kind::Info) => 1,
        _ => 2,
    }
}

fn most_operands(kind: Option<Kind>, option: Option<usize>) -> usize
    ensures { result ≡ most kind option }
{
    match (kind, option) {
        (Some(Kind::Seal), _) => 5,
        (Some(Kind::Info), _) => 1,
        (Some(Kind::Verify), None) => 4,
        _ => 2,
    }
}

#[tactic(auto, unfolding(crate::specs::Orders::word_row))]
pub fn check_words(p: Parts) -> Result<(), Problem>
    ensures { result ≡ word_row p }
{
    if p.all == 0 {
        return Err(Problem::NoWord);
    }
    if p.kind.is_none() {
        return Err(Problem::UnknownWord);
    }
    if p.count < fewest_operands(p.kind) {
        return Err(Problem::Missing);
    }
    if most_operands(p.kind, p.option) < p.count {
        return Err(Problem::Surplus);
    }
    if p.kind == Some(Kind::Verify) && p.count == 3 {
        return Err(Problem::Missing);
    }
    Ok(())
}

// A path is short enough for `.part` to follow it in 4,095 bytes.
const MAX_PATH: usize = 4090;

#[tactic(auto, unfolding(crate::specs::Orders::path_row))]
fn check_two(report: usize, proof: usize) -> Result<(), Problem>
    ensures { result ≡ path_row report proof }
{
    if report == 0 || proof == 0 {
        return Err(Problem::NoPath);
    }
    if MAX_PATH < report || MAX_PATH < proof {
        return Err(Problem::LongPath);
    }
    Ok(())
}

pub fn check_paths(kind: Option<Kind>, report: usize, proof: usize) -> Result<(), Problem>
    ensures { result ≡ paths_row kind report proof }
{
    match kind {
        Some(Kind::Info) => check_two(proof, proof),
        _ => check_two(report, proof),
    }
}
