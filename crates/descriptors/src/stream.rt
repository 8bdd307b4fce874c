// An open stream, read and written.
ghost use Rattle.std.specs.Io.{ReadsAtMost};

use std::fs::File;
use std::io;
use std::io::{IsTerminal, Read, Stderr, Stdin, Stdout, Write};

// What reads from a stream that is only written, or the other way round, gets from the system: C's EBADF.
const NOT_OPEN_FOR_IT: i32 = 9;

// One of the three standard streams, or an open file.
#[derive(Clone, Copy)]
pub enum Stream<'a> {
    Input(Stdin),
    Output(Stdout),
    Error(Stderr),
    File(&'a File),
}

fn not_open_for_it() -> io::Error {
    io::Error::from_raw_os_error(NOT_OPEN_FOR_IT)
}

// One read.
pub fn read(from: Stream<'_>, place: &mut [u8]) -> io::Result<usize>
    ensures { ReadsAtMost result place.new }
{
    match from {
        Stream::Input(mut input) => input.read(place),
        Stream::Output(_) | Stream::Error(_) => Err(not_open_for_it()),
        Stream::File(mut file) => file.read(place),
    }
}

// Writes all bytes, or stops at the first write that fails.
pub fn write_all(to: Stream<'_>, bytes: &[u8]) -> io::Result<()> {
    match to {
        Stream::Input(_) => Err(not_open_for_it()),
        Stream::Output(mut out) => Write::write_all(&mut out, bytes),
        Stream::Error(mut err) => Write::write_all(&mut err, bytes),
        Stream::File(mut file) => Write::write_all(&mut file, bytes),
    }
}

// Whether a stream is a terminal.
pub fn is_terminal(stream: Stream<'_>) -> bool {
    match stream {
        Stream::Input(input) => input.is_terminal(),
        Stream::Output(out) => out.is_terminal(),
        Stream::Error(err) => err.is_terminal(),
        Stream::File(file) => file.is_terminal(),
    }
}
