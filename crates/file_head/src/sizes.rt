// A file's head, and the sizes and places that it gives.
ghost use Rattle.std.specs.Prelude.{◌≡◌, ◌+◌, ◌≤◌};
ghost use Rattle.base.specs.Limits.{max_challenges, IsEdition, IsDepth, IsCount};
ghost use Rattle.tree.specs.Openings.{opening_size};
ghost use Rattle.file_head.specs.Layout.{opening_from};

use crate::lengths::{file_length, opening_start};

// A file's edition, depth and count, and where its numbers end: three take at most six bytes.
#[derive(Clone, Copy, Debug, PartialEq, Eq)]
pub struct Head {
    pub edition: u64,
    pub depth: u64,
    pub count: u64,
    pub end: usize,
    ghost within: { IsEdition edition × IsDepth depth × IsCount count × (end ≤ 6) },
}

impl Head {
    ghost use Rattle.file_head.specs.Head.{length_from};

    // The length of one opening.
    pub fn opening_size(&self) -> usize
        ensures { result ≡ opening_size self.now.depth }
    {
        32 * (self.depth + 1) as usize
    }

    // The length of the whole file.
    pub fn file_length(&self) -> usize
        ensures { result ≡ length_from self.now.depth self.now.count self.now.end }
    {
        file_length(self.depth, self.count, self.end)
    }

    // Where opening i begins.
    pub fn opening_start(&self, i: u64) -> usize
        requires { (1 ≤ i) × (i ≤ max_challenges) }
        ensures { result ≡ opening_from self.now.depth (self.now.end + 64) i }
    {
        opening_start(self.depth, self.end, i)
    }
}
