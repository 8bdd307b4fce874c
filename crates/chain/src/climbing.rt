// What increasing leaves write: each climbs towards the root until it meets the way of the next.
ghost use Rattle.std.specs.Prelude.{◌≡◌, ◌+◌, ◌^◌, ◌≤◌, ◌<◌, ◌++◌, length, drop};
ghost use Rattle.base.specs.Bytes.{written};
ghost use Rattle.base.specs.Limits.{max_depth};
ghost use Rattle.chain_theory.specs.Planning.{climb, next_code, plan_from};
ghost use Rattle.chain.specs.Leaves.{Leaves};

// A way up: codes from one upward, halving, until it is the other's, both climbing; at most `left` of them.
#[derive(Clone, Copy)]
struct Climb {
    left: u64,
    from: u64,
    other: u64,
}

impl Iterator for Climb {
    type Item = u64;

    ghost use Rattle.std.specs.Iterator.{YieldsFirst, item_count};

    ghost next_gives = { YieldsFirst (λ s. climb s.left s.from s.other) };

    ghost remaining = { item_count (λ s. climb s.left s.from s.other) };

    fn next(&mut self) -> Option<u64> {
        if self.left == 0 || self.from == self.other {
            return None;
        }
        let code = self.from;
        self.left -= 1;
        self.from /= 2;
        self.other /= 2;
        Some(code)
    }
}

// 2^n, the number of leaves and the code of the first.
pub fn width(depth: u64) -> u64
    requires { depth ≤ max_depth }
    ensures { (result ≡ 2 ^ depth) × (result ≤ 2 ^ max_depth) }
{
    1 << depth
}

// The code of the leaf at i, or 0, which is above the root, if there is none.
fn code_at(depth: u64, leaves: &[u64], i: usize) -> u64
    requires { Leaves depth leaves.now }
    ensures { result ≡ next_code depth (drop i leaves.now) }
{
    match leaves.get(i) {
        Some(leaf) => width(depth) + *leaf,
        None => 0,
    }
}

// The climb of the leaf at i.
fn climb_of(depth: u64, leaves: &[u64], i: usize) -> Climb
    requires known { Leaves depth leaves.now }
    requires inside { i < length leaves.now }
    ensures codes { plan_from depth (drop i leaves.now) ≡ climb result.left result.from result.other ++ plan_from depth (drop (i + 1) leaves.now) }
    ensures few { length (climb result.left result.from result.other) ≤ max_depth + 1 }
{
    Climb {
        left: depth + 1,
        from: code_at(depth, leaves, i),
        other: code_at(depth, leaves, i + 1),
    }
}

// How many codes the leaves write.
pub fn count_plan(depth: u64, leaves: &[u64]) -> usize
    requires { Leaves depth leaves.now }
    ensures { result ≡ length (plan_from depth leaves.now) }
{
    let mut count = 0;
    for i in 0..leaves.len() {
        count += climb_of(depth, leaves, i).count();
    }
    count
}

// Writes the codes of the leaves, from the list's first place on.
pub fn write_plan(depth: u64, leaves: &[u64], list: &mut [u64])
    requires { Leaves depth leaves.now × (length (plan_from depth leaves.now) ≤ length list.old) }
    ensures { list.new ≡ written list.old 0 (plan_from depth leaves.now) }
{
    // The place runs on over both loops, so neither of them can count it.
    let mut at = 0;
    for i in 0..leaves.len() {
        for code in climb_of(depth, leaves, i) {
            list[at] = code;
            at += 1;
        }
    }
}
