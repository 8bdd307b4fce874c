// A refusal in plain words.
ghost use Rattle.std.specs.Prelude.{◌≡◌, ◌≤◌, eqb, length};
ghost use Rattle.base.specs.Number.{number_of};
ghost use Rattle.lines.specs.Line.{IsInRoom, line_of};
ghost use Rattle.drawing_text.specs.Plain.{words_for, plain_table, plain_text};

use base::Refusal;
use lines::Line;

// A line of one text.
pub fn sentence(text: &[u8]) -> Line
    requires { length text.now ≤ 1000 }
    ensures value { line_of result ≡ text.now }
    ensures in_room { IsInRoom result }
{
    Line::new().add(text)
}

// A refusal that is not told by what differs.
fn words_for(why: Refusal) -> Line
    ensures value { line_of result ≡ words_for (number_of why) plain_table }
    ensures in_room { IsInRoom result }
{
    match why {
        Refusal::Depth => sentence(b"the proof's depth is not 1 to 40\n"),
        Refusal::Count => sentence(b"the proof's number of challenges is not 1 to 200\n"),
        Refusal::BytesEnd => sentence(b"the proof file ends too early\n"),
        Refusal::NotShortest => {
            sentence(b"a number at the start of the proof file is not in its shortest form\n")
        }
        Refusal::Edition => sentence(b"the proof file's edition is neither 1 nor 2\n"),
        Refusal::BytesLeft => sentence(b"the proof file has more bytes than its openings take\n"),
        Refusal::LeafLabel => {
            sentence(b"an opening's leaf label is not the hash of its left siblings\n")
        }
        Refusal::Root => sentence(b"an opening does not lead to the proof's root\n"),
        _ => sentence(b"the proof is refused\n"),
    }
}

// A refusal that is told as a number is: by words of its own, or by what differs. Any other number is told as `Input` is, by neither.
pub fn told_as(number: u64) -> Refusal
    ensures words { words_for (number_of result) plain_table ≡ words_for number plain_table }
    ensures differs { eqb (number_of result) 9 ≡ eqb number 9 }
{
    match number {
        1 => Refusal::Depth,
        8 => Refusal::Count,
        9 => Refusal::NotWanted,
        10 => Refusal::BytesEnd,
        11 => Refusal::NotShortest,
        12 => Refusal::Edition,
        13 => Refusal::BytesLeft,
        14 => Refusal::LeafLabel,
        15 => Refusal::Root,
        _ => Refusal::Input,
    }
}

// Of a file with so many bytes.
#[tactic(auto, unfolding(crate::specs::Plain::plain_text))]
pub fn plain_refusal(why: Refusal, size: usize) -> Line
    ensures value { line_of result ≡ plain_text (number_of why) size }
    ensures in_room { IsInRoom result }
{
    if size == 0 {
        return sentence(b"the proof file is empty\n");
    }
    words_for(why)
}

// The same, by document 01's number, or any other.
pub fn plain(number: u64, size: usize) -> Line
    ensures value { line_of result ≡ plain_text number size }
    ensures in_room { IsInRoom result }
{
    plain_refusal(told_as(number), size)
}
