// The order that a line's words give.
ghost use Rattle.std.specs.Prelude.{◌≡◌, ◌+◌, ◌^◌, ◌<◌};
ghost use Rattle.words.specs.Parts.{Placed};
ghost use Rattle.words.specs.Orders.{number_in, challenges_in, memory_in, seconds_in, seal_order, wanted_at, verify_order, asked, order_of};

use crate::kinds::asks_help;
use crate::operands::{parts, proof, report};
use crate::parting::word;
use crate::rows::{check_paths, check_words};
use crate::values::value;
use crate::{Kind, Order, Parts, Problem, SealOrder, Wanted};
use base::{MAX_CHALLENGES, MAX_DEPTH, MAX_MEMORY};

// The most seconds between checkpoints.
const MAX_SECONDS: u64 = 3600;

// The number that word i says, or what is wrong if it is none from low to high.
#[tactic(auto, unfolding(crate::specs::Orders::number_in))]
fn number(line: &[u8], i: usize, low: u64, high: u64, problem: Problem) -> Result<u64, Problem>
    ensures { result ≡ number_in low high problem i line.now }
{
    match value(word(line, i)) {
        Some(x) if low <= x && x <= high => Ok(x),
        _ => Err(problem),
    }
}

#[tactic(auto, unfolding(crate::specs::Orders::challenges_in))]
fn challenges_in(line: &[u8], p: Parts) -> Result<u64, Problem>
    requires { Placed p }
    ensures { result ≡ challenges_in line.now p }
{
    if p.count < 4 {
        return Ok(150);
    }
    number(line, p.first + 3, 1, MAX_CHALLENGES, Problem::Challenges)
}

#[tactic(auto, unfolding(crate::specs::Orders::memory_in))]
fn memory_in(line: &[u8], p: Parts, depth: u64) -> Result<u64, Problem>
    requires { Placed p }
    ensures { result ≡ memory_in line.now p depth }
{
    let most = depth.min(MAX_MEMORY);
    if p.count < 5 {
        return Ok(most);
    }
    number(line, p.first + 4, 0, most, Problem::Memory)
}

#[tactic(auto, unfolding(crate::specs::Orders::seconds_in))]
fn seconds_in(line: &[u8], p: Parts) -> Result<u64, Problem>
    requires { Placed p }
    ensures { result ≡ seconds_in line.now p }
{
    match p.option {
        None => Ok(60),
        Some(at) => number(line, at + 1, 0, MAX_SECONDS, Problem::Seconds),
    }
}

#[tactic(auto, unfolding(crate::specs::Orders::seal_order))]
fn seal_order(line: &[u8], p: Parts) -> Result<Order, Problem>
    requires { Placed p }
    ensures { result ≡ seal_order line.now p }
{
    let depth = number(line, p.first + 2, 1, MAX_DEPTH, Problem::Depth)?;
    let challenges = challenges_in(line, p)?;
    let memory = memory_in(line, p, depth)?;
    let seconds = seconds_in(line, p)?;
    Ok(Order::Seal(SealOrder {
        depth,
        challenges,
        memory,
        seconds,
    }))
}

// The depth and count that word i and the next one say.
#[tactic(auto, unfolding(crate::specs::Orders::wanted_at))]
fn wanted_at(line: &[u8], i: usize) -> Result<Wanted, Problem>
    requires { i + 1 < 2 ^ 64 }
    ensures { result ≡ wanted_at i line.now }
{
    let depth = number(line, i, 1, MAX_DEPTH, Problem::Depth)?;
    let challenges = number(line, i + 1, 1, MAX_CHALLENGES, Problem::Challenges)?;
    Ok(Wanted { depth, challenges })
}

#[tactic(auto, unfolding(crate::specs::Orders::verify_order))]
fn verify_order(line: &[u8], p: Parts) -> Result<Order, Problem>
    requires { Placed p }
    ensures { result ≡ verify_order line.now p }
{
    match p.option {
        Some(at) => Ok(Order::VerifyAtLeast(wanted_at(line, at + 1)?)),
        None if p.count < 3 => Ok(Order::Verify),
        None => Ok(Order::VerifyAs(wanted_at(line, p.first + 2)?)),
    }
}

#[tactic(auto, unfolding(crate::specs::Orders::asked))]
fn asked_for(line: &[u8], p: Parts) -> Result<Order, Problem>
    requires { Placed p }
    ensures { result ≡ asked line.now p }
{
    match p.kind {
        Some(Kind::Seal) => seal_order(line, p),
        Some(Kind::Verify) => verify_order(line, p),
        Some(Kind::Chain) => Ok(Order::Chain),
        _ => Ok(Order::Info),
    }
}

// What the words ask for, or the first thing that is wrong with them.
#[tactic(auto, unfolding(crate::specs::Orders::order_of))]
pub fn read_order(line: &[u8]) -> Result<Order, Problem>
    ensures { result ≡ order_of line.now }
{
    let p = parts(line);
    if asks_help(line, p.kind) {
        return Ok(Order::Help);
    }
    if p.kind == Some(Kind::Version) {
        return Ok(Order::Version);
    }
    check_words(p)?;
    check_paths(p.kind, report(line).len(), proof(line).len())?;
    asked_for(line, p)
}
