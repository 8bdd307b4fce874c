// The first pair of openings that disagrees, by the table, and the smallest level at which it does.
ghost use Rattle.std.specs.Prelude.{◌≡◌, ◌+◌, ◌-◌, ◌<◌, ◌≤◌, length, IfSome};
ghost use Rattle.compare.specs.FirstPair.{levels_from, seconds_from, first_pair, Lies};
ghost use Rattle.compare.specs.Table.{table_disagreement};

use crate::Pair;
use crate::table::Table;

impl<'a> Table<'a> {
    // The smallest level at which openings i and j disagree. Below a node that they do not share there is none.
    fn first_level(&self, i: u64, j: u64) -> Option<Pair>
        requires { (1 ≤ i) × (i < j) × (j ≤ length self.now.leaves.now) }
        ensures { result ≡ levels_from (table_disagreement self.now.depth self.now.leaves.now self.now.cells.now) i j 0 self.now.depth }
    {
        for level in 0..self.depth {
            if !self.shares(i, j, level) {
                return None;
            }
            if self.cell(i, level) != self.cell(j, level) {
                return Some(Pair {
                    first: i,
                    second: j,
                    level,
                });
            }
        }
        None
    }

    // Opening i with each after it.
    fn first_second(&self, i: u64) -> Option<Pair>
        requires { (1 ≤ i) × (i ≤ length self.now.leaves.now) }
        ensures { result
            ≡ seconds_from (table_disagreement self.now.depth self.now.leaves.now self.now.cells.now) self.now.depth i (i + 1)
            (length self.now.leaves.now - i) }
    {
        for j in i + 1..self.leaves.len() as u64 + 1 {
            if let Some(pair) = self.first_level(i, j) {
                return Some(pair);
            }
        }
        None
    }

    // Each opening with those after it.
    pub fn first_pair(&self) -> Option<Pair>
        ensures value { result ≡ first_pair (table_disagreement self.now.depth self.now.leaves.now self.now.cells.now) self.now.depth (length self.now.leaves.now) }
        ensures lies { IfSome result (Lies self.now.depth (length self.now.leaves.now)) }
    {
        for i in 1..self.leaves.len() as u64 + 1 {
            if let Some(pair) = self.first_second(i) {
                return Some(pair);
            }
        }
        None
    }
}
