// The planning program's answers, and then the file `scenarios`, line after line: each calls `mastdock` or does something to the files of the
// folder, and is headed by its words. Answers, progress and complaints go to standard output, which is compared with a stored one.
#![tactic(auto)]

mod acts; // acts.rt: files made, copied, changed and told of, and checkpoints
mod meanwhile; // meanwhile.rt: what can happen between the start of a run and its end
mod plans; // plans.rt: the planning program
mod streams; // streams.rt: answers apart from complaints, and streams that cannot be written

ghost use Rattle.std.specs.Prelude.{◌≡◌, length};

use acts::act;
use compare::{Clash, Pair};
use descriptors::{Stream, create, read_small, write_all};
use std::fs::Permissions;
use std::os::unix::fs::PermissionsExt;
use words::{join, word};

// Standard output.
pub fn output(rt: &HostRuntime) -> Stream<'static> {
    Stream::Output(rt.stdout())
}

// Bytes on standard output. What cannot be written, here and elsewhere, is passed over, and all that follows is done.
pub fn say(rt: &HostRuntime, bytes: &[u8]) {
    let _ = write_all(output(rt), bytes);
}

// Each blank becomes a byte 0, and so does the byte after the words; how many bytes that are, or 0 where the line has no room for them.
fn part_words(words: &[u8], line: &mut [u8]) -> usize
    ensures { length line.new ≡ length line.old }
{
    if line.len() <= words.len() {
        return 0;
    }
    for i in 0..words.len() {
        line[i] = if words[i] == b' ' { 0 } else { words[i] };
    }
    line[words.len()] = 0;
    words.len() + 1
}

// The front of some bytes; none where there are not so many.
pub fn front(bytes: &[u8], size: usize) -> &[u8] {
    bytes.get(..size).unwrap_or(&[])
}

// The bytes from a place on; none where there is no such place.
pub fn rest(bytes: &[u8], from: usize) -> &[u8] {
    bytes.get(from..).unwrap_or(&[])
}

// The program called with a line of words, each ended by a byte 0, and its status.
fn call(rt: &HostRuntime, line: &[u8], out: Stream<'_>, err: Stream<'_>) {
    let status = commands::command(rt, line, Stream::Input(rt.stdin()), out, err);
    let _ = println!(rt; "status {status}");
}

// The program called with words that are parted by blanks, and what it tells on two streams.
pub fn run_on(rt: &HostRuntime, words: &str, out: Stream<'_>, err: Stream<'_>) {
    let _ = println!(rt; "> mastdock {words}");
    let mut line = [0u8; 256];
    let size = part_words(words.as_bytes(), &mut line);
    call(rt, front(&line, size), out, err);
}

pub fn run(rt: &HostRuntime, words: &str) {
    run_on(rt, words, output(rt), output(rt));
}

// A line of the scenarios; one of 256 bytes or more is only shown.
fn run_line(rt: &HostRuntime, text: &[u8]) {
    say(rt, b"> ");
    say(rt, text);
    say(rt, b"\n");
    let mut place = [0u8; 256];
    let size = part_words(text, &mut place);
    let line = front(&place, size);
    if word(line, 0) == b"mastdock".as_slice() {
        call(rt, rest(line, 9), output(rt), output(rt));
    } else {
        act(rt, text, line);
    }
}

// The scenarios of the file of that name, of which at most 65,536 bytes are read.
fn run_file(rt: &HostRuntime) {
    let mut place = [0u8; 65536];
    let size = read_small(rt, b"scenarios", &mut place);
    let text = &place[..size];
    if text.is_empty() {
        return;
    }
    for line in text
        .strip_suffix(b"\n")
        .unwrap_or(text)
        .split(|byte| *byte == b'\n')
    {
        run_line(rt, line);
    }
}

// Seals a report of a path.
fn run_path(rt: &HostRuntime, path: &[u8]) {
    let mut line = [0u8; 8192];
    let mut size = 0;
    for word in [&b"seal"[..], path, b"x.proof", b"3"] {
        size = join(&mut line, size, word);
    }
    call(rt, front(&line, size), output(rt), output(rt));
}

// A new file of some bytes.
pub fn make(rt: &HostRuntime, name: &[u8], bytes: &[u8]) {
    if let Ok(file) = create(rt, name) {
        let _ = write_all(Stream::File(&file), bytes);
    }
}

// One byte more than the largest proof has.
fn too_much() -> [u8; 262469] {
    [0u8; 262469]
}

fn make_files(rt: &HostRuntime) {
    if let Ok(file) = create(rt, b"locked") {
        let _ = write_all(Stream::File(&file), b"a report that nobody may read\n");
        let _ = file.set_permissions(Permissions::from_mode(0));
    }
    make(rt, b"large.proof", &too_much());
}

// Too long for the system, which takes 255 bytes between two slashes, and for the program; and bytes that a terminal would obey.
fn paths(rt: &HostRuntime) {
    say(rt, b"> a path of 256 bytes, and one of 4091\n");
    run_path(rt, &[b'a'; 256]);
    run_path(rt, &[b'a'; 4091]);
    say(rt, b"> control characters and a backslash in a path\n");
    run_path(rt, b"none\x1b[31m\n\x7f\\");
}

// No proof whose openings clash is known: the lines are shown with made-up inputs.
fn clash(rt: &HostRuntime) {
    say(rt, b"> a clash\n");
    let pair = Pair {
        first: 2,
        second: 5,
        level: 1,
    };
    let clash = Clash {
        pair,
        first: [10u8; 105],
        second: [171u8; 105],
    };
    commands::say_clash(&clash, output(rt));
}

// The words of this program's own arguments, which are one too many.
fn surplus(rt: &HostRuntime) {
    say(
        rt,
        b"> this program's arguments: seal report x.proof 3 2 1 4\n",
    );
    let status = commands::run_arguments(rt, Stream::Input(rt.stdin()), output(rt), output(rt));
    let _ = println!(rt; "status {status}");
}

fn main(host: HostRuntime) {
    let rt = &host;
    plans::plans(rt);
    make_files(rt);
    surplus(rt);
    run_file(rt);
    paths(rt);
    clash(rt);
    streams::apart(rt);
    streams::not_written(rt);
    meanwhile::all(rt);
    streams::closed(rt);
}
