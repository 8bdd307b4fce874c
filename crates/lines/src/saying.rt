// Lines to a stream, each written in one piece.
ghost use Rattle.std.specs.Prelude.{MatchResult, ◌≡◌};
ghost use Rattle.std.specs.declared.option.Option.TheVariants.{Some, None};

use crate::errors::in_words;
use crate::{Line, ROOM};
use descriptors::{Stream, write_all};
use std::io;

// Writes a line, or tells why it was not written whole. One whose length is over its room is not written.
pub fn write_line(to: Stream<'_>, line: &Line) -> io::Result<()> {
    if ROOM < line.length {
        return Err(io::Error::from(io::ErrorKind::InvalidInput));
    }
    write_all(to, line.as_bytes())
}

// Writes a line, and answers whether it was written whole.
pub fn say(to: Stream<'_>, line: &Line) -> bool {
    write_line(to, line).is_ok()
}

pub fn say_text(to: Stream<'_>, text: &[u8]) -> bool {
    write_all(to, text).is_ok()
}

// One line on a file, by a line that says what is to be said of it.
pub fn complain_line(to: Stream<'_>, path: &[u8], what: &Line) {
    let named = Line::new().add(b"mastdock: ").add_name(path);
    say(to, &named.add(b": ").add_line(what).add(b"\n"));
}

// One line on what is wrong with a file.
pub fn complain(to: Stream<'_>, path: &[u8], what: &[u8]) {
    complain_line(to, path, &Line::new().add(what))
}

// The same, by an error of the system.
pub fn complain_of(to: Stream<'_>, path: &[u8], error: io::Error) {
    complain(to, path, in_words(error))
}

// The value of an answer; where it is an error, one line on the file says which, and there is no value.
pub fn or_complain<T>(answer: io::Result<T>, to: Stream<'_>, path: &[u8]) -> Option<T>
    ensures { MatchResult answer (λ value. result ≡ Some value) (λ _. result ≡ None) }
{
    match answer {
        Ok(value) => Some(value),
        Err(why) => {
            complain_of(to, path, why);
            None
        }
    }
}
