// PROOF.run: the checkpoint. A new one is written as PROOF.new, synced and renamed, so that a whole one is there at every moment.
ghost use Rattle.std.specs.Prelude.{IfOk, IfSome};
ghost use Rattle.descriptors.specs.Counts.{IsPrefixLen};

use crate::Name;
use crate::folder::sync_folder;
use crate::names::remove;
use crate::part::{is_blank, is_left_over};
use descriptors::{
    Stream, exists, open_append, open_overwrite, open_read, read, read_whole, rename, write_all,
};
use lines::{Line, complain, complain_line, complain_of, or_complain};
use std::fs::File;
use std::io;
use std::rt::Files;

// Whether the rest of an open file has no byte but zeros, in at most so many reads as any checkpoint takes.
fn rest_is_blank(open: Stream<'_>) -> bool {
    for _ in 0..1000000 {
        let mut place = [0u8; 4096];
        match read(open, &mut place) {
            Ok(0) => return true,
            Ok(size) if is_blank(&place[..size]) => {}
            _ => return false,
        }
    }
    false
}

fn is_open_ours(open: Stream<'_>, mark: &[u8]) -> bool {
    let mut place = [0u8; 4096];
    let size = read_whole(open, &mut place).size;
    if is_blank(&place[..size]) {
        rest_is_blank(open)
    } else {
        is_left_over(&place[..size], mark)
    }
}

// Whether PROOF.new is free, or left by a killed run: blank, or with the mark of a checkpoint.
fn is_new_ours<R: Files<File = File>>(rt: &R, path: &[u8], mark: &[u8], err: Stream<'_>) -> bool {
    if let Ok(false) = exists(rt, path) {
        return true;
    }
    let Some(file) = or_complain(open_read(rt, path), err, path) else {
        return false;
    };
    let ours = is_open_ours(Stream::File(&file), mark);
    if !ours {
        complain(
            err,
            path,
            b"there already, and no checkpoint; it is not overwritten",
        );
    }
    ours
}

// Whether checkpoints can be written beside this proof.
pub fn may_save<R: Files<File = File>>(rt: &R, proof: &[u8], mark: &[u8], err: Stream<'_>) -> bool {
    is_new_ours(rt, Name::beside(proof, b".new").path(), mark, err)
}

// A file with these bytes, on the disk.
fn write_new<R: Files<File = File>>(
    rt: &R,
    path: &[u8],
    bytes: &[u8],
    openings: &[u8],
) -> io::Result<()> {
    let file = open_overwrite(rt, path)?;
    write_all(Stream::File(&file), bytes)?;
    write_all(Stream::File(&file), openings)?;
    file.sync_all()
}

// A checkpoint and the openings that are finished, in place of the one before.
pub fn save<R: Files<File = File>>(
    rt: &R,
    proof: &[u8],
    bytes: &[u8],
    openings: &[u8],
    err: Stream<'_>,
) -> bool {
    let new = Name::beside(proof, b".new");
    let run = Name::beside(proof, b".run");
    let written = write_new(rt, new.path(), bytes, openings);
    if or_complain(written, err, new.path()).is_none() {
        let _ = descriptors::remove(rt, new.path());
        return false;
    }
    let renamed = rename(rt, new.path(), run.path());
    or_complain(renamed, err, run.path()).is_some() && sync_folder(rt, run.path()).is_ok()
}

fn append<R: Files<File = File>>(rt: &R, path: &[u8], bytes: &[u8], sync: bool) -> io::Result<()> {
    let file = open_append(rt, path)?;
    let written = write_all(Stream::File(&file), bytes);
    // What was written before a failure is synced too.
    if sync {
        file.sync_all()?;
    }
    written
}

// One opening more behind the checkpoint.
pub fn save_opening<R: Files<File = File>>(
    rt: &R,
    proof: &[u8],
    opening: &[u8],
    sync: bool,
) -> bool {
    append(rt, Name::beside(proof, b".run").path(), opening, sync).is_ok()
}

// How many bytes the file of that name has, if one is there.
fn load<R: Files<File = File>>(rt: &R, path: &[u8], place: &mut [u8]) -> io::Result<Option<usize>>
    ensures { IfOk result (λ there. IfSome there (λ size. IsPrefixLen size place.new)) }
{
    if let Ok(false) = exists(rt, path) {
        return Ok(None);
    }
    let file = open_read(rt, path)?;
    let input = read_whole(Stream::File(&file), place);
    match input.failure {
        Some(why) => Err(why),
        None => Ok(Some(input.size)),
    }
}

// Reads PROOF.run, if it is there, into a place that holds any checkpoint; what stands behind so many bytes is none of it. An error has been
// told by a line.
pub fn load_run<R: Files<File = File>>(
    rt: &R,
    proof: &[u8],
    place: &mut [u8],
    err: Stream<'_>,
) -> io::Result<Option<usize>>
    ensures { IfOk result (λ there. IfSome there (λ size. IsPrefixLen size place.new)) }
{
    let name = Name::beside(proof, b".run");
    load(rt, name.path(), place).inspect_err(|why| complain_of(err, name.path(), *why))
}

// Removes the checkpoint, when the proof stands under its name.
pub fn remove_run<R: Files<File = File>>(rt: &R, proof: &[u8]) {
    remove(rt, proof, b".run");
    remove(rt, proof, b".new")
}

// A line on PROOF.run.
pub fn say_of_run(proof: &[u8], what: &Line, err: Stream<'_>) {
    complain_line(err, Name::beside(proof, b".run").path(), what)
}
