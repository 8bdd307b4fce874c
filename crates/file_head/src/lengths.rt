// Sizes of a file and its parts, by its numbers.
ghost use Rattle.std.specs.Prelude.{◌≡◌, ◌+◌, ◌≤◌};
ghost use Rattle.base.specs.Limits.{max_depth, max_challenges};
ghost use Rattle.file_head.specs.Layout.{opening_from};
ghost use Rattle.file_head.specs.Head.{length_from};

// The length of a file whose numbers end at a place.
pub fn file_length(n: u64, t: u64, at: usize) -> usize
    requires { (n ≤ max_depth) × (t ≤ max_challenges) × (at ≤ 6) }
    ensures { result ≡ length_from n t at }
{
    at + 64 + t as usize * (32 * (n + 1) as usize)
}

// Where opening i begins in a file whose numbers end at a place.
pub fn opening_start(n: u64, at: usize, i: u64) -> usize
    requires { (n ≤ max_depth) × (at ≤ 6) × (1 ≤ i) × (i ≤ max_challenges) }
    ensures { result ≡ opening_from n (at + 64) i }
{
    at + 64 + (i - 1) as usize * (32 * (n + 1) as usize)
}
