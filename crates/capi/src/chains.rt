// Chains: planned and drawn, and the comparison of openings.
ghost use Rattle.std.specs.Prelude.{◌≡◌, length, IfNone, IfSome};
ghost use Rattle.base.specs.Bytes.{zeros};
ghost use Rattle.chain.specs.PlanRow.{plan_row, planned_count, planned_list};
ghost use Rattle.compare.specs.Comparison.{compare_row, compared, first_input, second_input};
ghost use Rattle.draw.specs.Drawing.{drawing_answer, drawing_of, drawn_list, first_drawn, second_drawn, clash_pair};
ghost use Rattle.capi.specs.Answers.{first_of, second_of, level_of, kind_of, refusal_of, count_of};

use base::outcome_number;
use draw::Drawing;
use labelling::Tree;

#[repr(C)]
#[derive(Clone, Copy)]
pub struct Planned {
    pub refusal: u64,
    pub count: u64,
}

// The chain of leaves in any order, with repeats, from the list's first place on, and its count, or the refusal beside 0.
pub fn mastdock_plan(depth: u64, leaves: &[u64], list: &mut [u64]) -> Planned
    ensures refusal_value { result.refusal ≡ plan_row depth leaves.now (length list.old) }
    ensures count_value { result.count ≡ planned_count depth leaves.now (length list.old) }
    ensures list_after { list.new ≡ planned_list depth leaves.now list.old }
{
    let planned = chain::plan(depth, leaves, list);
    Planned {
        refusal: outcome_number(planned),
        count: planned.unwrap_or(0),
    }
}

// Two openings that disagree: the pair i < j, from 1, the smallest level, and both hash inputs there; all zero where no pair does.
// `zero` is always 0: it names the bytes that would be padding.
#[repr(C)]
#[derive(Clone, Copy)]
pub struct Clash {
    pub i: u64,
    pub j: u64,
    pub level: u64,
    pub first: [u8; 105],
    pub second: [u8; 105],
    pub zero: [u8; 6],
}

// What stands where there is no clash.
const NO_CLASH: Clash = Clash {
    i: 0,
    j: 0,
    level: 0,
    first: [0; 105],
    second: [0; 105],
    zero: [0; 6],
};

// A clash as C is told of it.
fn clash_of(found: Option<compare::Clash>) -> Clash
    ensures none { IfNone found (result ≡ record { i = 0; j = 0; level = 0; first = zeros 105; second = zeros 105; zero = zeros 6 }) }
    ensures some { IfSome found (λ c. result ≡ record {
      i = c.pair.first;
      j = c.pair.second;
      level = c.pair.level;
      first = c.first;
      second = c.second;
      zero = zeros 6;
    }) }
{
    match found {
        None => NO_CLASH,
        Some(clash) => {
            let first = clash.first;
            let second = clash.second;
            Clash {
                i: clash.pair.first,
                j: clash.pair.second,
                level: clash.pair.level,
                first,
                second,
                zero: [0; 6],
            }
        }
    }
}

#[repr(C)]
#[derive(Clone, Copy)]
pub struct Compared {
    pub refusal: u64,
    pub clash: Clash,
}

// The first pair of openings that disagrees, the smallest level and both inputs there, as an edition hashes them; all zero where no pair
// does.
pub fn mastdock_compare(
    edition: u64,
    statement: &[u8; 32],
    depth: u64,
    leaves: &[u64],
    openings: &[u8],
) -> Compared
    ensures refusal_value { result.refusal ≡ compare_row edition depth leaves.now (length openings.now) }
    ensures i_value { result.clash.i ≡ first_of (compared edition statement.now depth leaves.now openings.now) }
    ensures j_value { result.clash.j ≡ second_of (compared edition statement.now depth leaves.now openings.now) }
    ensures level_value { result.clash.level ≡ level_of (compared edition statement.now depth leaves.now openings.now) }
    ensures first_value { result.clash.first
        ≡ first_input edition statement.now depth leaves.now openings.now
        (compared edition statement.now depth leaves.now openings.now) }
    ensures second_value { result.clash.second
        ≡ second_input edition statement.now depth leaves.now openings.now
        (compared edition statement.now depth leaves.now openings.now) }
    ensures zero_value { result.clash.zero ≡ zeros 6 }
{
    let tree = Tree {
        statement: *statement,
        edition,
        depth,
    };
    let compared = compare::compare(&tree, leaves, openings);
    Compared {
        refusal: outcome_number(compared),
        clash: clash_of(compared.unwrap_or(None)),
    }
}

#[repr(C)]
#[derive(Clone, Copy)]
pub struct Drawn {
    pub kind: u64,
    pub code: u64,
    pub count: u64,
    pub clash: Clash,
}

// The chain of a proof, or the first clash of two of its openings, or the refusal.
pub fn mastdock_draw(
    file: &[u8],
    statement: &[u8; 32],
    depth: u64,
    count: u64,
    list: &mut [u64],
) -> Drawn
    ensures kind_value { result.kind ≡ kind_of (drawing_of file.now statement.now depth count (length list.old)) }
    ensures code_value { result.code ≡ refusal_of (drawing_of file.now statement.now depth count (length list.old)) }
    ensures count_value { result.count ≡ count_of (drawing_of file.now statement.now depth count (length list.old)) }
    ensures i_value { result.clash.i ≡ first_of (clash_pair (drawing_of file.now statement.now depth count (length list.old))) }
    ensures j_value { result.clash.j ≡ second_of (clash_pair (drawing_of file.now statement.now depth count (length list.old))) }
    ensures level_value { result.clash.level ≡ level_of (clash_pair (drawing_of file.now statement.now depth count (length list.old))) }
    ensures first_value { result.clash.first ≡ first_drawn file.now statement.now depth count (length list.old) }
    ensures second_value { result.clash.second ≡ second_drawn file.now statement.now depth count (length list.old) }
    ensures zero_value { result.clash.zero ≡ zeros 6 }
    ensures list_after { list.new ≡ drawn_list file.now statement.now depth count list.old }
{
    match draw::draw(file, *statement, depth, count, list) {
        Err(why) => Drawn {
            kind: 0,
            code: base::code(Err(why)),
            count: 0,
            clash: NO_CLASH,
        },
        Ok(Drawing::Chain(count)) => Drawn {
            kind: 1,
            code: 0,
            count,
            clash: NO_CLASH,
        },
        Ok(Drawing::Clash(found)) => Drawn {
            kind: 2,
            code: 0,
            count: 0,
            clash: clash_of(Some(found)),
        },
    }
}
