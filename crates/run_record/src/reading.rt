// W-201: any bytes read as a run.
ghost use Rattle.std.specs.Prelude.{◌≡◌, IfOk, ◌≤◌, length};
ghost use Rattle.base.specs.Number.{outcome_number};
ghost use Rattle.tree.specs.Walk.{nodes_in};
ghost use Rattle.base.specs.Limits.{max_depth};
ghost use Rattle.run_record.specs.Layout.{numbers_space};
ghost use Rattle.run_record.specs.Reading.{length_from, rest_row, run_from, resume_row, resumed};

use crate::RecordNumbers;
use crate::numbers::read_numbers;
use crate::writing::held_length;
use base::{HELD_SIZE, Refusal, label_at, put};
use run::{Run, not_possible};

impl RecordNumbers {
    // The row after the numbers, for a record of so many bytes: 4, then 18.
    #[tactic(auto, unfolding(crate::specs::Reading::rest_row))]
    fn check(&self, len: usize) -> Result<(), Refusal>
        requires { self.now.end ≤ numbers_space }
        ensures { outcome_number result ≡ rest_row self.now.edition self.now.depth self.now.memory self.now.made self.now.end len }
    {
        if not_possible(self.edition, self.depth, self.memory, self.made) {
            return Err(Refusal::State);
        }
        if len != self.end + 32 + held_length(self.depth, self.made) {
            return Err(Refusal::RecordLength);
        }
        Ok(())
    }

    // The run of these numbers. Its callers know that the length is what they require.
    fn run_in(&self, bytes: &[u8]) -> Run
        requires { (self.now.depth ≤ max_depth) × (self.now.made ≤ nodes_in self.now.depth)
            × (length bytes.now ≡ length_from self.now.depth self.now.made self.now.end) }
        ensures { result ≡ run_from bytes.now self.now.edition self.now.depth self.now.memory self.now.made self.now.end }
    {
        let labels = self.end + 32;
        let mut held = [0u8; HELD_SIZE];
        put(&mut held, 0, &bytes[labels..]);
        Run {
            statement: label_at(bytes, self.end),
            edition: self.edition,
            depth: self.depth,
            memory: self.memory,
            made: self.made,
            held,
        }
    }
}

// Takes up the run that the bytes are the record of.
#[tactic(auto, unfolding(crate::specs::Reading::resume_row, crate::specs::Reading::resumed))]
pub fn read_record(bytes: &[u8]) -> Result<Run, Refusal>
    ensures outcome_value { outcome_number result ≡ resume_row bytes.now }
    ensures run_value { IfOk result (λ run. run ≡ resumed bytes.now) }
{
    let numbers = read_numbers(bytes)?;
    numbers.check(bytes.len())?;
    Ok(numbers.run_in(bytes))
}
