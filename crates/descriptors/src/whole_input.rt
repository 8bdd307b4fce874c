// Reading to the end of the input or of the place for it.
ghost use Rattle.std.specs.Prelude.{◌<◌, ◌≡◌, length};
ghost use Rattle.descriptors.specs.Counts.{IsPrefixLen};

use crate::stream::{Stream, read};
use std::io;

// How many bytes came, how many of them by the last read, and why that one failed if it did.
#[derive(Clone, Copy)]
pub struct Input {
    pub size: usize,
    pub last: usize,
    pub failure: Option<io::Error>,
}

// Reads until the place is full or a read gives nothing.
pub fn read_whole(from: Stream<'_>, place: &mut [u8]) -> Input
    ensures prefix { IsPrefixLen result.size place.new }
    ensures ended { result.size < length place.new → result.last ≡ 0 }
{
    let mut size: usize = 0;
    let mut last: usize = 0;
    while size < place.len() {
        last = match read(from, &mut place[size..]) {
            Ok(given) => given,
            Err(why) => {
                return Input {
                    size,
                    last: 0,
                    failure: Some(why),
                };
            }
        };
        if last == 0 {
            break;
        }
        size += last;
    }
    Input {
        size,
        last,
        failure: None,
    }
}

// Whether more bytes follow.
pub fn follows(from: Stream<'_>) -> io::Result<bool> {
    let mut one = [0u8; 1];
    Ok(read(from, &mut one)? != 0)
}
