// A proof written over its room, synced, read back, and renamed only when it is whole.
use crate::Name;
use crate::folder::sync_folder;
use crate::part::{empty_file, is_free, write_synced};
use descriptors::{Stream, create, follows, open_read, read_whole, rename};
use lines::{complain, or_complain};
use std::fs::File;
use std::io;
use std::io::{Seek, SeekFrom};
use std::rt::Files;

// Whether an open file has these bytes and no more.
fn holds_bytes(file: &File, bytes: &[u8]) -> bool {
    let mut place = empty_file();
    let size = read_whole(Stream::File(file), &mut place).size;
    matches!(follows(Stream::File(file)), Ok(false)) && &place[..size] == bytes
}

// Whether the file of that name has these bytes and no more.
fn has_bytes<R: Files<File = File>>(rt: &R, path: &[u8], bytes: &[u8]) -> bool {
    match open_read(rt, path) {
        Ok(file) => holds_bytes(&file, bytes),
        Err(_) => false,
    }
}

// Whether the temporary name leads to the file that is open, and that has these bytes and no more.
fn is_as_written<R: Files<File = File>>(
    rt: &R,
    file: &File,
    part: &[u8],
    bytes: &[u8],
    err: Stream<'_>,
) -> bool {
    if !has_bytes(rt, part, bytes) {
        complain(
            err,
            part,
            b"cannot be read back as written: removed or changed by another program, or not readable",
        );
        return false;
    }
    if !descriptors::names(rt, Stream::File(file), part) {
        complain(
            err,
            part,
            b"not the file that was written: removed or exchanged by another program",
        );
        return false;
    }
    true
}

// Writes the proof over its room. Answers whether the temporary file has it.
fn fill_part<R: Files<File = File>>(
    rt: &R,
    file: File,
    part: &[u8],
    bytes: &[u8],
    err: Stream<'_>,
) -> bool {
    let mut at_start = &file;
    let _ = at_start.seek(SeekFrom::Start(0));
    or_complain(write_synced(&file, bytes), err, part).is_some()
        && is_as_written(rt, &file, part, bytes, err)
}

// Writes the proof under a third name, since the temporary file has it not.
fn write_aside<R: Files<File = File>>(rt: &R, name: &[u8], bytes: &[u8]) -> io::Result<()> {
    let file = create(rt, name)?;
    write_synced(&file, bytes)
}

fn say_where(name: &[u8], err: Stream<'_>) {
    complain(err, name, b"the finished proof is here")
}

// Gives the file its name, unless that is taken by now; it stays under its temporary name otherwise.
fn give_name<R: Files<File = File>>(rt: &R, part: &[u8], proof: &[u8], err: Stream<'_>) -> bool {
    if !is_free(rt, proof, err) || or_complain(rename(rt, part, proof), err, proof).is_none() {
        say_where(part, err);
        return false;
    }
    if sync_folder(rt, proof).is_err() {
        complain(
            err,
            proof,
            b"the proof stands, but its folder could not be synced",
        );
    }
    true
}

// Writes the proof over its room, syncs it, renames it and syncs the folder. Answers whether the proof stands under its name;
// if not, it is told where it is: under its temporary name, or as PROOF.kept.
pub fn keep_proof<R: Files<File = File>>(
    rt: &R,
    file: File,
    proof: &[u8],
    bytes: &[u8],
    err: Stream<'_>,
) -> bool {
    let part = Name::beside(proof, b".part");
    if fill_part(rt, file, part.path(), bytes, err) {
        return give_name(rt, part.path(), proof, err);
    }
    let kept = Name::beside(proof, b".kept");
    if or_complain(write_aside(rt, kept.path(), bytes), err, kept.path()).is_some() {
        say_where(kept.path(), err);
    }
    false
}
