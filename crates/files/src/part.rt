// PROOF.part: the proof's room on the disk, and at the end the proof before it gets its name.
ghost use Rattle.std.specs.Prelude.{◌≡◌, ◌≤◌, IfSome};
ghost use Rattle.base.specs.Limits.{max_file};
ghost use Rattle.base.specs.Bytes.{zeros};
ghost use Rattle.files.specs.LeftOver.{is_blank, left_over};

use crate::Name;
use base::MAX_FILE;
use descriptors::{Stream, create, exists, follows, open_update, read_whole, write_all};
use lines::{complain, or_complain};
use std::fs::File;
use std::io;
use std::rt::Files;

// A place for the largest proof.
pub fn empty_file() -> [u8; MAX_FILE]
    ensures { result ≡ zeros max_file }
{
    [0u8; MAX_FILE]
}

// Complains if the name is taken. Between this test and a rename another program can still take it.
pub fn is_free<R: Files<File = File>>(rt: &R, path: &[u8], err: Stream<'_>) -> bool {
    let Some(taken) = or_complain(exists(rt, path), err, path) else {
        return false;
    };
    if taken {
        complain(err, path, b"there already, and not overwritten");
    }
    !taken
}

// Writes all bytes and waits until the disk has them.
pub fn write_synced(file: &File, bytes: &[u8]) -> io::Result<()> {
    write_all(Stream::File(file), bytes)?;
    file.sync_all()
}

// Takes a file's room on the disk by zeros, and waits until the disk has them.
pub fn take_room(file: &File, size: usize) -> io::Result<()> {
    let zeros = empty_file();
    if zeros.len() < size {
        return Err(io::Error::from(io::ErrorKind::InvalidInput));
    }
    write_synced(file, &zeros[..size])
}

pub fn is_blank(bytes: &[u8]) -> bool
    ensures { result ≡ is_blank bytes.now }
{
    bytes.iter().all(|byte| *byte == 0)
}

// Whether bytes were left by a run that was killed: nothing is in them yet, or they begin as its own file does.
pub fn is_left_over(bytes: &[u8], head: &[u8]) -> bool
    ensures { result ≡ left_over bytes.now head.now }
{
    is_blank(bytes) || bytes.starts_with(head)
}

// How many bytes an open file of that name has that a killed run left, at most so many; none where it is no such file.
fn left_size<R: Files<File = File>>(
    rt: &R,
    file: &File,
    path: &[u8],
    head: &[u8],
    size: usize,
) -> Option<usize>
    ensures { IfSome result (λ found. found ≤ size) }
{
    let mut place = empty_file();
    let found = read_whole(Stream::File(file), &mut place).size;
    if found <= size
        && matches!(follows(Stream::File(file)), Ok(false))
        && is_left_over(&place[..found], head)
        && descriptors::names(rt, Stream::File(file), path)
    {
        return Some(found);
    }
    None
}

// Goes on with the file that a killed run left, if it is such a file, and takes the room that is missing behind it. No byte of it is changed,
// and no link is followed.
fn take_over<R: Files<File = File>>(
    rt: &R,
    path: &[u8],
    head: &[u8],
    size: usize,
    err: Stream<'_>,
) -> Option<File> {
    let file = or_complain(open_update(rt, path), err, path)?;
    let Some(found) = left_size(rt, &file, path, head, size) else {
        complain(
            err,
            path,
            b"there already, and not of this report, edition, depth and challenges; it is not overwritten",
        );
        return None;
    };
    or_complain(take_room(&file, size - found), err, path)?;
    Some(file)
}

// The room of a file that was made; one that has no room is removed again.
fn take_new<R: Files<File = File>>(
    rt: &R,
    file: File,
    path: &[u8],
    size: usize,
    err: Stream<'_>,
) -> Option<File> {
    if or_complain(take_room(&file, size), err, path).is_some() {
        return Some(file);
    }
    drop(file);
    let _ = descriptors::remove(rt, path);
    None
}

// PROOF.part with room for so many bytes: made, or taken over from a killed run whose proof begins with this head. None where it cannot be
// had.
pub fn make_part<R: Files<File = File>>(
    rt: &R,
    proof: &[u8],
    head: &[u8],
    size: usize,
    err: Stream<'_>,
) -> Option<File> {
    let name = Name::beside(proof, b".part");
    match create(rt, name.path()) {
        Ok(file) => take_new(rt, file, name.path(), size, err),
        Err(why) if why.kind() == io::ErrorKind::AlreadyExists => {
            take_over(rt, name.path(), head, size, err)
        }
        refused => or_complain(refused, err, name.path()),
    }
}
