// How far a run is, how fast it is, and how long it takes.
ghost use Rattle.std.specs.Prelude.{◌≡◌};
ghost use Rattle.lines.specs.Line.{IsInRoom, line_of};
ghost use Rattle.lines.specs.Texts.{percent_of, duration_text, share_text, pace_text, progress_text, forecast_text, anew_text, resumed_text, opening_text};

use crate::Line;

// In seconds.
const MINUTE: u64 = 60;

const HOUR: u64 = 3600;

const DAY: u64 = 86400;

#[tactic(auto, unfolding(crate::specs::Texts::percent_of))]
fn percent(made: u64, all: u64) -> u64
    ensures { result ≡ percent_of made all }
{
    if all == 0 || 1 << 57 <= made {
        0
    } else {
        100 * made / all
    }
}

// Seconds, in two units at most.
pub fn duration(seconds: u64) -> Line
    ensures value { line_of result ≡ duration_text seconds }
    ensures in_room { IsInRoom result }
{
    // No match on ranges: a proof cannot name which of them was taken.
    let line = Line::new();
    if seconds < MINUTE {
        line.add_number(seconds).add(b" s")
    } else if seconds < HOUR {
        line.add_number(seconds / MINUTE)
            .add_field(b" min ", seconds % MINUTE)
            .add(b" s")
    } else if seconds < DAY {
        line.add_number(seconds / HOUR)
            .add_field(b" h ", seconds % HOUR / MINUTE)
            .add(b" min")
    } else {
        line.add_number(seconds / DAY)
            .add_field(b" d ", seconds % DAY / HOUR)
            .add(b" h")
    }
}

// How many labels are made, of how many, and so how many in a hundred.
fn share(made: u64, all: u64) -> Line
    ensures value { line_of result ≡ share_text made all }
    ensures in_room { IsInRoom result }
{
    Line::new()
        .add_field(b"labels ", made)
        .add_field(b" of ", all)
        .add_field(b", ", percent(made, all))
        .add(b" %")
}

// How many labels are made a second, and how long the rest takes.
fn pace(rate: u64, left: u64) -> Line
    ensures value { line_of result ≡ pace_text rate left }
    ensures in_room { IsInRoom result }
{
    Line::new()
        .add_field(b", ", rate)
        .add(b" a second, ")
        .add_line(&duration(left))
        .add(b" left")
}

// How far labelling is; the pace where it is known.
pub fn progress(made: u64, all: u64, rate: u64, left: u64) -> Line
    ensures value { line_of result ≡ progress_text made all rate left }
    ensures in_room { IsInRoom result }
{
    let told = share(made, all);
    if rate == 0 {
        told
    } else {
        told.add_line(&pace(rate, left))
    }
}

// How long a depth takes at a pace.
pub fn forecast(depth: u64, seconds: u64, rate: u64) -> Line
    ensures value { line_of result ≡ forecast_text depth seconds rate }
    ensures in_room { IsInRoom result }
{
    Line::new()
        .add_field(b"depth ", depth)
        .add(b": about ")
        .add_line(&duration(seconds))
        .add_field(b" at ", rate)
        .add(b" labels a second\n")
}

// A memory level that makes more labels anew for the openings than the tree has.
pub fn anew(memory: u64, anew: u64, tree: u64) -> Line
    ensures value { line_of result ≡ anew_text memory anew tree }
    ensures in_room { IsInRoom result }
{
    Line::new()
        .add_field(b"memory level ", memory)
        .add_field(b" makes ", anew)
        .add_field(b" labels anew for the openings, more than the ", tree)
        .add(b" of the tree\n")
}

// A run goes on at a label.
pub fn resumed_at(made: u64, all: u64) -> Line
    ensures value { line_of result ≡ resumed_text made all }
    ensures in_room { IsInRoom result }
{
    Line::new()
        .add_field(b"going on from label ", made)
        .add_field(b" of ", all)
}

// A run goes on with an opening.
pub fn resumed_opening(opening: u64, challenges: u64) -> Line
    ensures value { line_of result ≡ opening_text opening challenges }
    ensures in_room { IsInRoom result }
{
    Line::new()
        .add_field(b"going on with opening ", opening)
        .add_field(b" of ", challenges)
}
