// A line under way, and what is added to it.
ghost use Rattle.std.specs.Prelude.{◌≡◌, [], ◌∷◌, ◌<◌, ◌≤◌, length};
ghost use Rattle.decimal.specs.Text.{decimal};
ghost use Rattle.lines.specs.Line.{IsInRoom, line_of, added, hex_byte, added_hex, is_control, added_byte, added_name};
ghost use Rattle.lines.specs.Digits.{hex_digit_ascii};

use crate::{Line, ROOM};
use base::put;

// As many bytes may stand before a byte of a name: the rest of a message still fits behind it.
const NAME_ROOM: usize = 8000;

impl Line {
    #[tactic(auto, unfolding(crate::specs::Line::line_of))]
    pub fn new() -> Line
        ensures value { line_of result ≡ [] }
        ensures in_room { IsInRoom result }
    {
        Line {
            text: [0u8; ROOM],
            length: 0,
        }
    }

    // What the line holds so far: all its text where its length is over it.
    #[tactic(auto, unfolding(crate::specs::Line::line_of))]
    pub fn as_bytes(&self) -> &[u8]
        ensures value { result.now ≡ line_of self.now }
        ensures bound { length result.now ≤ 8192 }
    {
        let end = self.length.min(ROOM);
        &self.text[..end]
    }

    // A part after the line, in its place, or nothing where it does not fit.
    fn push(&mut self, part: &[u8])
        ensures value { line_of self.new ≡ added (line_of self.old) part.now }
        ensures in_room { IsInRoom self.old → IsInRoom self.new }
    {
        let at = self.length;
        if ROOM < at {
            return;
        }
        if ROOM - at < part.len() {
            return;
        }
        put(&mut self.text, at, part);
        self.length = at + part.len();
    }

    // The same, of a line that is handed on.
    pub fn add(mut self, part: &[u8]) -> Line
        ensures value { line_of result ≡ added (line_of self) part.now }
        ensures in_room { IsInRoom self → IsInRoom result }
    {
        self.push(part);
        self
    }

    // Another line after it, or nothing where that does not fit.
    pub fn add_line(self, part: &Line) -> Line
        ensures value { line_of result ≡ added (line_of self) (line_of part.now) }
        ensures in_room { IsInRoom self → IsInRoom result }
    {
        self.add(part.as_bytes())
    }

    // A number in decimal.
    pub fn add_number(self, x: u64) -> Line
        ensures value { line_of result ≡ added (line_of self) (decimal x) }
        ensures in_room { IsInRoom self → IsInRoom result }
    {
        let digits = decimal::spell(x);
        self.add(&digits.text[digits.start..])
    }

    // A name and a number.
    pub fn add_field(self, name: &[u8], x: u64) -> Line
        ensures value { line_of result ≡ added (added (line_of self) name.now) (decimal x) }
        ensures in_room { IsInRoom self → IsInRoom result }
    {
        self.add(name).add_number(x)
    }

    // Bytes in hexadecimal.
    pub fn add_hex(self, bytes: &[u8]) -> Line
        ensures value { line_of result ≡ added_hex (line_of self) bytes.now }
        ensures in_room { IsInRoom self → IsInRoom result }
    {
        let mut line = self;
        for byte in bytes {
            line.push(&hex_byte(*byte));
        }
        line
    }

    // A byte of a name, shown so that no terminal obeys it.
    fn push_byte(&mut self, byte: u8)
        ensures value { line_of self.new ≡ added_byte (line_of self.old) byte }
        ensures in_room { IsInRoom self.old → IsInRoom self.new }
    {
        if NAME_ROOM < self.length {
            return;
        }
        if is_control(byte) {
            self.push(&escape(byte));
        } else if byte == b'\\' {
            self.push(b"\\\\");
        } else {
            self.push(&[byte]);
        }
    }

    // A name, as far as it leaves room for the rest of a message.
    pub fn add_name(self, name: &[u8]) -> Line
        ensures value { line_of result ≡ added_name (line_of self) name.now }
        ensures in_room { IsInRoom self → IsInRoom result }
    {
        let mut line = self;
        for byte in name {
            line.push_byte(*byte);
        }
        line
    }
}

// A digit below 16.
fn digit(d: u8) -> u8
    requires { d < 16 }
    ensures { result ≡ hex_digit_ascii d }
{
    if d < 10 { b'0' + d } else { b'a' + (d - 10) }
}

#[tactic(auto, unfolding(crate::specs::Line::hex_byte))]
fn hex_byte(byte: u8) -> [u8; 2]
    ensures { result ≡ hex_byte byte }
{
    [digit(byte / 16), digit(byte % 16)]
}

fn is_control(byte: u8) -> bool
    ensures { result ≡ is_control byte }
{
    byte < 32 || byte == 127
}

// A byte by its number: a backslash, an x and two digits.
#[tactic(auto, unfolding(crate::specs::Line::hex_byte))]
fn escape(byte: u8) -> [u8; 4]
    ensures { result ≡ 92 ∷ 120 ∷ hex_byte byte }
{
    [b'\\', b'x', digit(byte / 16), digit(byte % 16)]
}
