// Chains: planned and drawn, and the comparison of openings.
ghost use Rattle.std.specs.Prelude.{◌≡◌, length};
ghost use Rattle.base.specs.Bytes.{zeros};
ghost use Rattle.chain.specs.PlanRow.{plan_row, planned_count, planned_list};
ghost use Rattle.compare.specs.Comparison.{compare_row, compared, first_input, second_input};
ghost use Rattle.draw.specs.Drawing.{drawing_of, drawn_list, first_drawn, second_drawn, clash_pair};
ghost use Rattle.capi.specs.Answers.{first_of, second_of, level_of, kind_of, refusal_of, count_of};

use capi::{Compared, Drawn, Planned};

// The chain of leaves in any order, with repeats, from the list's first place on, and its count, or the refusal beside 0.
#[unsafe(no_mangle)]
pub extern "C" fn mastdock_plan(depth: u64, leaves: &[u64], list: &mut [u64]) -> Planned
    ensures refusal_value { result.refusal ≡ plan_row depth leaves.now (length list.old) }
    ensures count_value { result.count ≡ planned_count depth leaves.now (length list.old) }
    ensures list_after { list.new ≡ planned_list depth leaves.now list.old }
{
    capi::mastdock_plan(depth, leaves, list)
}

// The first pair of openings that disagrees, the smallest level and both inputs there, as an edition hashes them; all zero where no pair
// does.
#[unsafe(no_mangle)]
pub extern "C" fn mastdock_compare(
    edition: u64,
    statement: &[u8; 32],
    depth: u64,
    leaves: &[u64],
    openings: &[u8],
) -> Compared
    ensures refusal_value { result.refusal ≡ compare_row edition depth leaves.now (length openings.now) }
    ensures i_value { result.clash.i ≡ first_of (compared edition statement.now depth leaves.now openings.now) }
    ensures j_value { result.clash.j ≡ second_of (compared edition statement.now depth leaves.now openings.now) }
    ensures level_value { result.clash.level ≡ level_of (compared edition statement.now depth leaves.now openings.now) }
    ensures first_value { result.clash.first
        ≡ first_input edition statement.now depth leaves.now openings.now
        (compared edition statement.now depth leaves.now openings.now) }
    ensures second_value { result.clash.second
        ≡ second_input edition statement.now depth leaves.now openings.now
        (compared edition statement.now depth leaves.now openings.now) }
    ensures zero_value { result.clash.zero ≡ zeros 6 }
{
    capi::mastdock_compare(edition, statement, depth, leaves, openings)
}

// The chain of a proof, or the first clash of two of its openings, or the refusal.
#[unsafe(no_mangle)]
pub extern "C" fn mastdock_draw(
    file: &[u8],
    statement: &[u8; 32],
    depth: u64,
    count: u64,
    list: &mut [u64],
) -> Drawn
    ensures kind_value { result.kind ≡ kind_of (drawing_of file.now statement.now depth count (length list.old)) }
    ensures code_value { result.code ≡ refusal_of (drawing_of file.now statement.now depth count (length list.old)) }
    ensures count_value { result.count ≡ count_of (drawing_of file.now statement.now depth count (length list.old)) }
    ensures i_value { result.clash.i ≡ first_of (clash_pair (drawing_of file.now statement.now depth count (length list.old))) }
    ensures j_value { result.clash.j ≡ second_of (clash_pair (drawing_of file.now statement.now depth count (length list.old))) }
    ensures level_value { result.clash.level ≡ level_of (clash_pair (drawing_of file.now statement.now depth count (length list.old))) }
    ensures first_value { result.clash.first ≡ first_drawn file.now statement.now depth count (length list.old) }
    ensures second_value { result.clash.second ≡ second_drawn file.now statement.now depth count (length list.old) }
    ensures zero_value { result.clash.zero ≡ zeros 6 }
    ensures list_after { list.new ≡ drawn_list file.now statement.now depth count list.old }
{
    capi::mastdock_draw(file, statement, depth, count, list)
}
