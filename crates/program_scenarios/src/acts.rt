// What a line of the scenarios does to the files of the folder. Each act is told what it does by its words, of which the first is its name.
use crate::{front, make, output, rest, say};
use base::NEW_EDITION;
use descriptors::{Stream, open_append, open_overwrite, open_read, read_small, write_all};
use lines::fact_bytes;
use words::word;

// A word as a number; the greatest if it is none.
fn number(line: &[u8], i: usize) -> u64 {
    words::value(word(line, i)).unwrap_or(u64::MAX)
}

fn overwrite(rt: &HostRuntime, name: &[u8], bytes: &[u8]) {
    if let Ok(file) = open_overwrite(rt, name) {
        let _ = write_all(Stream::File(&file), bytes);
    }
}

fn append(rt: &HostRuntime, name: &[u8], bytes: &[u8]) {
    if let Ok(file) = open_append(rt, name) {
        let _ = write_all(Stream::File(&file), bytes);
    }
}

// `make NAME TEXT`: a new file of a text and a line feed.
fn make_text(rt: &HostRuntime, text: &[u8], line: &[u8]) {
    let name = word(line, 1);
    make(rt, name, rest(rest(text, 6), name.len()));
    append(rt, name, b"\n");
}

// `zeros NAME SIZE`: a new file of zeros.
fn make_zeros(rt: &HostRuntime, line: &[u8]) {
    let zeros = [0u8; 65536];
    make(rt, word(line, 1), front(&zeros, number(line, 2) as usize));
}

// `copy FROM START END TO`: the bytes between two places of a file go behind those of another, which is made where it is missing.
fn copy(rt: &HostRuntime, line: &[u8]) {
    let mut place = [0u8; 65536];
    let size = read_small(rt, word(line, 1), &mut place);
    let whole = front(&place[..size], number(line, 3) as usize);
    let to = word(line, 4);
    make(rt, to, b"");
    append(rt, to, rest(whole, number(line, 2) as usize));
}

// `flip NAME PLACE`: the lowest bit of a byte is changed.
fn flip(rt: &HostRuntime, line: &[u8]) {
    let name = word(line, 1);
    let mut place = [0u8; 65536];
    let size = read_small(rt, name, &mut place);
    let bytes = &mut place[..size];
    if let Some(byte) = bytes.get_mut(number(line, 2) as usize) {
        *byte ^= 1;
        overwrite(rt, name, bytes);
    }
}

// `stamp NAME`: the last 32 bytes become the SHA-256 of all before them.
fn stamp(rt: &HostRuntime, line: &[u8]) {
    let name = word(line, 1);
    let mut place = [0u8; 65536];
    let size = read_small(rt, name, &mut place);
    if let Some(end) = size.checked_sub(32) {
        let before = &place[..end];
        if let Ok(hashed) = sha256::digest(before) {
            overwrite(rt, name, before);
            append(rt, name, &hashed.digest);
        }
    }
}

// `remove NAME`
fn remove(rt: &HostRuntime, line: &[u8]) {
    let _ = descriptors::remove(rt, word(line, 1));
}

// `pause REPORT PROOF DEPTH CHALLENGES MEMORY LABELS`: the checkpoint that a seal of the newest edition has after so many labels, at memory
// level 6 at most. The statement is 32 zero bytes where the report cannot be read.
fn pause(rt: &HostRuntime, line: &[u8]) {
    let input = Stream::Input(rt.stdin());
    let statement = files::state_report(rt, word(line, 1), input, output(rt)).map_or(
        [0u8; 32],
        |stated| stated.statement,
    );
    let mut store = [0u8; 4096];
    let mut run = run::new_run(NEW_EDITION, statement, number(line, 3), number(line, 5));
    let _ = run.advance(number(line, 6), &mut store);
    let mut space = [0u8; 8192];
    let size = checkpoint::write_checkpoint(run, number(line, 4), &store, &mut space).unwrap_or(0);
    files::save(rt, word(line, 2), front(&space, size), b"", output(rt));
}

// `tell NAME`: how many bytes a file has, and their SHA-256.
fn tell(rt: &HostRuntime, line: &[u8]) {
    let name = word(line, 1);
    say(rt, b"file ");
    say(rt, name);
    if open_read(rt, name).is_err() {
        return say(rt, b" not there\n");
    }
    let mut place = [0u8; 65536];
    let size = read_small(rt, name, &mut place);
    let _ = print!(rt; " bytes {size}");
    if let Ok(hashed) = sha256::digest(&place[..size]) {
        lines::say(output(rt), &fact_bytes(b" sha256 ", &hashed.digest));
    }
}

// Does what a line says, given as it stands and with a byte 0 in place of each blank. Any other line, as one that begins with #, does nothing.
pub fn act(rt: &HostRuntime, text: &[u8], line: &[u8]) {
    match word(line, 0) {
        b"make" => make_text(rt, text, line),
        b"zeros" => make_zeros(rt, line),
        b"copy" => copy(rt, line),
        b"flip" => flip(rt, line),
        b"stamp" => stamp(rt, line),
        b"remove" => remove(rt, line),
        b"pause" => pause(rt, line),
        b"tell" => tell(rt, line),
        _ => {}
    }
}
