// How fast labels are made, and how long those that are left take.
#![tactic(auto)]

ghost use Rattle.std.specs.Prelude.{◌≡◌, ◌≤◌};
ghost use Rattle.pace.specs.Pace.{rate_of, height, seconds_left};

use base::MAX_DEPTH;

// Fewer labels than these, times 1,000, fit 64 bits.
const TOO_MANY_MADE: u64 = 1 << 53;

// Fewer labels than these, times a depth and 13, fit 64 bits.
const TOO_MANY_LEFT: u64 = 1 << 50;

// Labels a second, of those made in some milliseconds.
#[tactic(auto, unfolding(crate::specs::Pace::rate_of))]
pub fn rate(made: u64, ms: u64) -> u64
    ensures { result ≡ rate_of made ms }
{
    if ms == 0 || TOO_MANY_MADE <= made {
        0
    } else {
        1000 * made / ms
    }
}

// The depth of a tree of as many labels, or the highest.
#[tactic(auto, using(crate::proofs::PaceLaws::height_log), unfolding(crate::specs::Pace::height))]
fn height_of(high: u64, made: u64) -> u64
    ensures { (result ≡ height high made) × (result ≤ high) }
{
    if made < 2 {
        0
    } else {
        high.min(u64::from(made.ilog2()))
    }
}

// How long the labels that are left take at the rate of those that are made.
#[tactic(auto, unfolding(crate::specs::Pace::seconds_left))]
pub fn seconds_left(left: u64, rate: u64, made: u64, depth: u64) -> u64
    ensures { result ≡ seconds_left left rate made depth }
{
    if rate == 0 || TOO_MANY_LEFT <= left || MAX_DEPTH < depth {
        return 0;
    }
    let shallow = height_of(depth, made);
    left * (depth + 13) / (shallow + 13) / rate
}
