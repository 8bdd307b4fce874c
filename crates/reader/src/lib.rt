// Document 01, 'A proof under reading is the caller's bytes with a place': a struct that holds the slice.
#![tactic(auto)]

ghost use Rattle.std.specs.Prelude.{◌≡◌, ◌+◌, ◌<◌, ◌↔◌, min, length, IsSome, IfSome};
ghost use Rattle.groups.specs.Groups.{max_groups};
ghost use Rattle.groups.specs.Reading.{answer_of, read_at};
ghost use Rattle.file_head.specs.Head.{head_answer, head_of, part_start, part_length, opening_part};
ghost use Rattle.reader.specs.Moving.{answered, place_after};

use base::Refusal;
use file_head::Head;
use groups::Number;

// The caller's bytes and a place in them.
#[derive(Clone, Copy)]
pub struct Reader<'a> {
    pub src: &'a [u8],
    pub at: usize,
}

impl<'a> Reader<'a> {
    // The caller's bytes from their start.
    pub fn begin(src: &'a [u8]) -> Reader<'a>
        ensures { (result.src ≡ src.entry) × (result.at ≡ 0) }
    {
        Reader { src, at: 0 }
    }

    // The same bytes at another place.
    pub fn moved(self, to: usize) -> Reader<'a>
        ensures { (result.src ≡ self.entry.src) × (result.at ≡ to) }
    {
        Reader {
            src: self.src,
            at: to,
        }
    }

    // The number at the place, of at most `most` groups and of no more than ten. The reader goes behind it, or stays where the number is
    // refused.
    pub fn number(&mut self, most: usize) -> Result<u64, Refusal>
        ensures value { answered result self.new.at ≡ read_at self.old.src.now self.old.at (min most max_groups) }
        ensures place { self.new.at ≡ place_after self.old.at (read_at self.old.src.now self.old.at (min most max_groups)) }
        ensures bytes { self.new.src ≡ self.old.src }
    {
        let number = groups::read(self.src, self.at, most)?;
        self.at = number.end;
        Ok(number.value)
    }

    // The head that the bytes begin with, or the first refusal.
    pub fn head(self) -> Result<Head, Refusal>
        ensures { head_answer result ≡ head_of self.entry.src.now }
    {
        file_head::read_head(self.src)
    }

    // Opening i, from 1, as that part of the caller's bytes; empty where there is none.
    pub fn opening(self, i: u64) -> &'a [u8]
        ensures { (result.now ≡ opening_part self.entry.src.now i)
            × (result.ref_ptr ≡ (self.entry.src.ref_ptr.0, self.entry.src.ref_ptr.1 + part_start self.entry.src.now i (head_of self.entry.src.now))) }
    {
        proof_file::opening_part(self.src, i)
    }
}

// The number that the bytes begin with.
pub fn first_number(bytes: &[u8], most: usize) -> Result<Number, Refusal>
    ensures { answer_of result ≡ read_at bytes.now 0 (min most max_groups) }
{
    let mut reader = Reader::begin(bytes);
    let value = reader.number(most)?;
    Ok(Number {
        value,
        end: reader.at,
    })
}

// Opening i of the bytes, through a reader.
pub fn opening_of(bytes: &[u8], i: u64) -> &[u8]
    ensures { (result.now ≡ opening_part bytes.now i)
        × (result.ref_ptr ≡ (bytes.entry.ref_ptr.0, bytes.entry.ref_ptr.1 + part_start bytes.now i (head_of bytes.now))) }
{
    Reader::begin(bytes).opening(i)
}

// How many bytes opening i has. A caller with plain slices is covered.
pub fn opening_length(bytes: &[u8], i: u64) -> usize
    ensures { result ≡ length (opening_part bytes.now i) }
{
    opening_of(bytes, i).len()
}
