// What can happen to the proof's names and its room between the start of a run and its end.
use crate::streams::show;
use crate::{make, output, run, say};
use descriptors::{make_folder, open_append, open_read, read_small};
use files::keep_proof;
use std::fs::{File, Permissions};
use std::io;
use std::os::unix::fs::PermissionsExt;

// Room for three bytes.
fn make_part(rt: &HostRuntime, proof: &[u8]) -> Option<File> {
    files::make_part(rt, proof, b"abc", 3, output(rt))
}

// Keeps three bytes as a proof, if there is room for them.
fn keep(rt: &HostRuntime, part: Option<File>, proof: &[u8]) {
    if let Some(file) = part {
        if keep_proof(rt, file, proof, b"abc", output(rt)) {
            say(rt, b"kept\n");
        }
    }
}

// The room is taken before anything is labelled, and the proof is written over it.
fn room(rt: &HostRuntime) {
    say(rt, b"> the room of a proof of three bytes, and the proof\n");
    let part = make_part(rt, b"room.proof");
    let mut place = [0u8; 4096];
    let size = read_small(rt, b"room.proof.part", &mut place);
    let _ = println!(rt; "room.proof.part: bytes {size}");
    keep(rt, part, b"room.proof");
    show(rt, "room.proof");
    show(rt, "room.proof.part");
}

fn taken(rt: &HostRuntime) {
    say(rt, b"> the name is taken meanwhile\n");
    let part = make_part(rt, b"taken.proof");
    make(rt, b"taken.proof", b"made meanwhile");
    keep(rt, part, b"taken.proof");
    show(rt, "taken.proof");
    show(rt, "taken.proof.part");
}

fn replace(rt: &HostRuntime, bytes: &[u8], proof: &str, name: &str, kept: &str) {
    let part = make_part(rt, proof.as_bytes());
    let _ = descriptors::remove(rt, name.as_bytes());
    make(rt, name.as_bytes(), bytes);
    keep(rt, part, proof.as_bytes());
    show(rt, proof);
    show(rt, name);
    show(rt, kept);
}

fn replaced(rt: &HostRuntime) {
    say(rt, b"> the temporary file is replaced meanwhile\n");
    replace(
        rt,
        b"xyz",
        "moved.proof",
        "moved.proof.part",
        "moved.proof.kept",
    );
    say(rt, b"> the same by a file of the same bytes\n");
    replace(
        rt,
        b"abc",
        "equal.proof",
        "equal.proof.part",
        "equal.proof.kept",
    );
}

fn allow(folder: &io::Result<File>, mode: u32) {
    if let Ok(open) = folder {
        let _ = open.set_permissions(Permissions::from_mode(mode));
    }
}

// A folder that may not be changed any more.
fn not_renamed(rt: &HostRuntime) {
    say(rt, b"> the proof cannot be renamed\n");
    let _ = make_folder(rt, b"still");
    let folder = open_read(rt, b"still");
    let part = make_part(rt, b"still/x.proof");
    allow(&folder, 0o500);
    keep(rt, part, b"still/x.proof");
    show(rt, "still/x.proof.part");
    allow(&folder, 0o700);
}

// A disk with no room, and one that cannot be synced, by devices that answer so.
fn device(rt: &HostRuntime, path: &[u8], proof: &str, kept: &str) {
    keep(rt, open_append(rt, path).ok(), proof.as_bytes());
    show(rt, proof);
    show(rt, kept);
}

fn devices(rt: &HostRuntime) {
    say(rt, b"> a disk with no room\n");
    device(rt, b"/dev/full", "full.proof", "full.proof.kept");
    say(rt, b"> a disk that cannot be synced\n");
    device(rt, b"/dev/null", "null.proof", "null.proof.kept");
}

// A folder that may be changed but not read, and so not synced.
fn folder(rt: &HostRuntime) {
    let _ = make_folder(rt, b"dark");
    let folder = open_read(rt, b"dark");
    allow(&folder, 0o300);
    run(rt, "seal report dark/x.proof 3 2");
    allow(&folder, 0o700);
    run(rt, "verify report dark/x.proof");
}

pub fn all(rt: &HostRuntime) {
    room(rt);
    taken(rt);
    replaced(rt);
    not_renamed(rt);
    devices(rt);
    folder(rt);
}
