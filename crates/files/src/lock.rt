// PROOF.lock: the processes that worked on this proof, a line for each, in the order in which they came. The first that still works holds
// the name. A line is appended by one write, so of two that come at once one stands before the other, and both see the same order.
ghost use Rattle.lines.specs.Line.{IsInRoom};

use crate::Name;
use crate::names::remove;
use crate::part::empty_file;
use descriptors::{
    Process, Stream, create, follows, number_in, open_append, open_read, process_at, read_small,
    read_whole,
};
use lines::{Line, complain, or_complain, write_line};
use std::fs::File;
use std::io;
use std::rt::Files;

// Why the name is not held: another process holds it, or it is not to be had.
#[derive(Clone, Copy, Debug, PartialEq, Eq)]
pub enum NotHeld {
    Busy,
    Failed,
}

fn stat_path(number: u64) -> Line
    ensures { IsInRoom result }
{
    Line::new().add_field(b"/proc/", number).add(b"/stat")
}

// Whether the process still works: one of its number and its start is there.
fn works<R: Files<File = File>>(rt: &R, process: Process) -> bool {
    process_at(rt, stat_path(process.number).as_bytes()) == Some(process)
}

// The line feed before it ends a line that a power cut broke off.
fn process_line(process: Process) -> Line
    ensures { IsInRoom result }
{
    Line::new()
        .add_field(b"\n", process.number)
        .add_field(b" ", process.start)
        .add(b"\n")
}

// The process of the line that a text begins with. A start that a power cut broke off is sought in what follows, and names no process.
fn process_in(text: &[u8]) -> Process {
    let start = text.split(|byte| *byte == b' ').nth(1).unwrap_or(&[]);
    Process {
        number: number_in(text),
        start: number_in(start),
    }
}

// What follows the line that a text begins with.
fn behind_line(text: &[u8]) -> &[u8] {
    match text.iter().position(|byte| *byte == b'\n') {
        Some(at) => &text[at + 1..],
        None => &[],
    }
}

// Whether no process of an earlier line works. Each line has a byte at least, which bounds the turns.
fn is_first<R: Files<File = File>>(rt: &R, text: &[u8], own: Process) -> bool {
    let mut rest = text;
    for _ in 0..text.len() {
        if rest.is_empty() {
            return false;
        }
        let process = process_in(rest);
        if process == own {
            return true;
        }
        if works(rt, process) {
            return false;
        }
        rest = behind_line(rest);
    }
    false
}

fn reads_first<R: Files<File = File>>(rt: &R, path: &[u8], own: Process) -> bool {
    let mut place = empty_file();
    let size = read_small(rt, path, &mut place);
    is_first(rt, &place[..size], own)
}

// Whether a byte stands in a lock: a digit, a blank, a line feed, or a zero that a power cut left.
fn is_of_lock(byte: u8) -> bool {
    matches!(byte, b'0'..=b'9' | b' ' | b'\n' | 0)
}

// Whether no file is there, or a lock.
fn is_lock<R: Files<File = File>>(rt: &R, path: &[u8]) -> bool {
    let Ok(file) = open_read(rt, path) else {
        return true;
    };
    let mut place = empty_file();
    let size = read_whole(Stream::File(&file), &mut place).size;
    matches!(follows(Stream::File(&file)), Ok(false))
        && place[..size].iter().all(|byte| is_of_lock(*byte))
}

// The file for this process's line. It is made where it is missing.
fn open_lock<R: Files<File = File>>(rt: &R, path: &[u8]) -> io::Result<File> {
    let _ = create(rt, path);
    open_append(rt, path)
}

// The line stands in the file that has the name: it was not removed meanwhile by the process that held it.
fn hold_by<R: Files<File = File>>(
    rt: &R,
    file: &File,
    path: &[u8],
    own: Process,
    err: Stream<'_>,
) -> Result<(), NotHeld> {
    let written = write_line(Stream::File(file), &process_line(own));
    or_complain(written, err, path).ok_or(NotHeld::Failed)?;
    if reads_first(rt, path, own) && descriptors::names(rt, Stream::File(file), path) {
        return Ok(());
    }
    complain(err, path, b"another run works on this proof");
    Err(NotHeld::Busy)
}

// Takes the name for this process, or tells why not.
pub fn hold<R: Files<File = File>>(rt: &R, proof: &[u8], err: Stream<'_>) -> Result<(), NotHeld> {
    let name = Name::beside(proof, b".lock");
    let Some(own) = process_at(rt, b"/proc/self/stat") else {
        complain(
            err,
            b"/proc/self/stat",
            b"cannot be read: it tells whether another run works on this proof",
        );
        return Err(NotHeld::Failed);
    };
    if !is_lock(rt, name.path()) {
        complain(
            err,
            name.path(),
            b"there already, and no lock; it is left as it is",
        );
        return Err(NotHeld::Failed);
    }
    let opened = or_complain(open_lock(rt, name.path()), err, name.path());
    let file = opened.ok_or(NotHeld::Failed)?;
    hold_by(rt, &file, name.path(), own, err)
}

// Gives the name back.
pub fn release<R: Files<File = File>>(rt: &R, proof: &[u8]) {
    remove(rt, proof, b".lock")
}
