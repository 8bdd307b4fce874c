// The planning program's answers to the shared vectors, and at the edges of its input.
use crate::{front, output, say};
use descriptors::{Stream, create, open_read, write_all};
use std::alloc::AllocError;

fn output_space() -> [u8; 287992] {
    [0; 287992]
}

fn answered(rt: &HostRuntime, input: &[u8]) {
    let mut text = output_space();
    let count = planning::answer(input, &mut text);
    say(rt, front(&text, count));
}

fn blanks() -> [u8; 65537] {
    [b' '; 65537]
}

// A depth, and the first leaf so many times, and then an end.
fn repeated(rt: &HostRuntime, depth: &[u8], times: usize, end: &[u8]) -> Result<(), AllocError> {
    let mut input = Vec::new(rt.alloc());
    input.extend_from_slice(depth)?;
    for _ in 0..times {
        input.extend_from_slice(b" 1")?;
    }
    input.extend_from_slice(end)?;
    answered(rt, &input);
    Ok(())
}

fn plain(rt: &HostRuntime) {
    for input in [
        &b"2 3 0 3"[..],
        b"2 0",
        b"4 0 1 2 3 8 9 13 14 15",
        b"1 0 1\n",
        b"3\n7\n\n7 0",
        b"40 0 1099511627775",
        b"",
        b" \n",
        b"x",
        b"2",
        b"0 0",
        b"41 0",
        b"2 4",
        b"2 18446744073709551615",
        b"2 18446744073709551616",
        b"2\x091",
    ] {
        answered(rt, input);
    }
}

// Numbers with zeros before them; as many leaves as there may be, and more.
fn long(rt: &HostRuntime) -> Result<(), AllocError> {
    answered(rt, b"002 003 0000000000000000000000003");
    repeated(rt, b"2", 200, b" ")?;
    repeated(rt, b"2", 201, b" ")?;
    repeated(rt, b"41", 201, b" ")?;
    repeated(rt, b"2", 200, b" 9")
}

// The planning program over a file of these bytes.
fn planned(rt: &HostRuntime, bytes: &[u8]) {
    if let Ok(file) = create(rt, b"input") {
        let _ = write_all(Stream::File(&file), bytes);
    }
    if let Ok(file) = open_read(rt, b"input") {
        plan_command::plan(Stream::File(&file), output(rt), output(rt));
    }
    let _ = descriptors::remove(rt, b"input");
}

// W-203: a depth alone.
fn no_leaves(rt: &HostRuntime) {
    for input in [
        &b"1"[..],
        b"40\n",
        b"0",
        b"41",
        b"2 ",
        b"3 8",
        b"2\n",
        b" 2 ",
    ] {
        answered(rt, input);
    }
    planned(rt, b"2");
}

// Blanks before a plan that is good without them, as many as there may be and one more; and the program's reads: it reads one byte more than an
// input may have, and no plan is printed of what it did not read whole.
fn edges(rt: &HostRuntime) {
    let mut input = blanks();
    input[65533] = b'1';
    input[65535] = b'0';
    answered(rt, front(&input, 65536));
    answered(rt, &input);
    let mut input = blanks();
    input[0] = b'2';
    input[2] = b'0';
    planned(rt, front(&input, 65536));
    input[65536] = b'x';
    planned(rt, &input);
}

// An input that cannot be read, and an output that cannot be written.
fn failing(rt: &HostRuntime) {
    if let Ok(folder) = open_read(rt, b".") {
        plan_command::plan(Stream::File(&folder), output(rt), output(rt));
    }
    if let Ok(none) = open_read(rt, b"/dev/null") {
        plan_command::plan(Stream::File(&none), Stream::File(&none), output(rt));
    }
}

pub fn plans(rt: &HostRuntime) {
    plain(rt);
    let _ = long(rt);
    no_leaves(rt);
    edges(rt);
    failing(rt);
}
