// Processes by their numbers. A number is given again, so a process is told by its number and its start.
use crate::small_file::{number_in, read_small};
use std::fs::File;
use std::rt::Files;

// A process's number and when it was started, in the system's ticks.
#[derive(Clone, Copy, Debug, PartialEq, Eq)]
pub struct Process {
    pub number: u64,
    pub start: u64,
}

// Behind the parenthesis that closes the name each blank begins a field, the first of them field 3.
fn field(text: &[u8], number: usize) -> Option<&[u8]> {
    let behind_name = text.rsplit(|byte| *byte == b')').next()?;
    behind_name.split(|byte| *byte == b' ').nth(number)
}

// Field 3 is the state, Z or X of a process that has ended, and that only its parent has not asked for yet; field 22 is the start.
fn process_in(text: &[u8]) -> Option<Process> {
    let number = number_in(text);
    match field(text, 1)?.first()? {
        b'Z' | b'X' => None,
        _ if number == 0 => None,
        _ => Some(Process {
            number,
            start: field(text, 20).map_or(0, number_in),
        }),
    }
}

// The process of a folder's file `stat` under /proc; none where it has ended.
pub fn process_at<R: Files<File = File>>(rt: &R, path: &[u8]) -> Option<Process> {
    let mut text = [0u8; 4096];
    let size = read_small(rt, path, &mut text);
    process_in(&text[..size])
}
