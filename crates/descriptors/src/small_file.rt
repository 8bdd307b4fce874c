// Small files of text, as the system keeps them under /proc: read whole, and numbers in them.
ghost use Rattle.std.specs.Prelude.{◌≡◌, ◌≤◌, length};
ghost use Rattle.descriptors.specs.Counts.{IsPrefixLen};
ghost use Rattle.descriptors.specs.Decimal.{number_after};

use crate::{Stream, open_read, read_whole};
use std::fs::File;
use std::rt::Files;

// Reads a file into a place, and answers how many bytes came. A file that cannot be read counts as an empty one: no caller tells the two apart.
pub fn read_small<R: Files<File = File>>(rt: &R, path: &[u8], place: &mut [u8]) -> usize
    ensures { IsPrefixLen result place.new }
{
    match open_read(rt, path) {
        Ok(file) => read_whole(Stream::File(&file), place).size,
        Err(_) => 0,
    }
}

// Where a value has no room for another digit, its number ends.
const MOST: u64 = 1000000000000000000;

// The number in decimal that a text begins with: its digits up to another byte; 0 where there are none.
pub fn number_in(text: &[u8]) -> u64
    ensures { result ≡ number_after 0 text.now }
{
    let mut value: u64 = 0;
    for byte in text {
        if !byte.is_ascii_digit() || MOST <= value {
            return value;
        }
        value = 10 * value + u64::from(*byte - b'0');
    }
    value
}
