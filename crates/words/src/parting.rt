// The words of a line: each is ended by a byte 0.
ghost use Rattle.std.specs.Prelude.{◌≡◌, length};
ghost use Rattle.decimal.specs.Steps.{Wrote};
ghost use Rattle.words.specs.Parting.{word_at, word_count, ended_word};

use base::put;

// Word i, from 0; empty where there is none.
pub fn word(line: &[u8], i: usize) -> &[u8]
    ensures { result.now ≡ word_at i line.now }
{
    line.split(|byte| *byte == 0).nth(i).unwrap_or(&[])
}

#[tactic(auto, unfolding(crate::specs::Parting::word_count))]
pub fn word_count(line: &[u8]) -> usize
    ensures { result ≡ word_count line.now }
{
    line.iter().filter(|byte| **byte == 0).count()
}

// Writes a word and its 0 at a place of the line, where there is room, and answers the place after them.
pub fn join(line: &mut [u8], at: usize, word: &[u8]) -> usize
    ensures { Wrote line.old at (ended_word (length line.old) at word.now) line.new result }
{
    if line.len() <= at || line.len() - at <= word.len() {
        return at;
    }
    put(line, at, word);
    let end = at + word.len();
    line[end] = 0;
    end + 1
}
