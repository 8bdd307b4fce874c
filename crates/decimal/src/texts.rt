// Numbers as text, laid into the output from a place on.
ghost use Rattle.std.specs.Prelude.{◌≡◌, ◌∷◌, [], ◌+◌, ◌≤◌, ◌<◌, length, take, drop};
ghost use Rattle.base.specs.Bytes.{zeros};
ghost use Rattle.decimal.specs.Text.{decimal, field};
ghost use Rattle.decimal.specs.Steps.{Wrote};

use base::put;

// The digits of a number, from a place on; zeros before it. An array and a place and no `String`: memory is fixed, there is no heap.
#[derive(Clone, Copy)]
pub struct Spelled {
    pub text: [u8; 20],
    pub start: usize,
}

impl Spelled {
    // The digits alone.
    pub fn digits(&self) -> &[u8]
        requires { self.now.start ≤ length self.now.text }
        ensures { result.now ≡ drop self.now.start self.now.text }
    {
        &self.text[self.start..]
    }
}

// A number in decimal.
// Not a `for` over the places from the last: the loop ends with the digits, and the place that it came to is answered.
pub fn spell(x: u64) -> Spelled
    ensures { ((drop result.start result.text ≡ decimal x) × (take result.start result.text ≡ zeros result.start))
        × ((result.start < 20) × (length result.text ≡ 20)) }
{
    let mut text = [0u8; 20];
    let mut i = 19;
    let mut rest = x;
    while 10 <= rest {
        text[i] = b'0' + (rest % 10) as u8;
        rest /= 10;
        i -= 1;
    }
    text[i] = b'0' + rest as u8;
    Spelled { text, start: i }
}

// A text and a number after it.
pub fn put_field(out: &mut [u8], at: usize, name: &[u8], x: u64) -> usize
    requires { at + (length name.now + 20) ≤ length out.old }
    ensures { Wrote out.old at (field name.now x) out.new result }
{
    put(out, at, name);
    let spelt = spell(x);
    let digits = spelt.digits();
    let middle = at + name.len();
    put(out, middle, digits);
    middle + digits.len()
}

// A line feed.
#[tactic(auto, using(crate::proofs::Laying::one_byte))]
pub fn end_line(out: &mut [u8], at: usize) -> usize
    requires { at < length out.old }
    ensures { Wrote out.old at (10 ∷ []) out.new result }
{
    out[at] = b'\n';
    at + 1
}
