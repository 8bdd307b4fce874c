// Answers apart from complaints, large reports, and streams that cannot be written.
use crate::{make, output, run, run_on, say};
use descriptors::{Stream, create, open_read, read_whole, write_all};
use std::os::fd::AsRawFd;

// What a file has, at most 4,096 bytes of it.
pub fn show(rt: &HostRuntime, name: &str) {
    let _ = print!(rt; "{name}: ");
    let Ok(file) = open_read(rt, name.as_bytes()) else {
        return say(rt, b"not there\n");
    };
    let mut place = [0u8; 4096];
    let size = read_whole(Stream::File(&file), &mut place).size;
    say(rt, &place[..size]);
    say(rt, b"\n");
}

// A scenario whose standard output and standard error are two new files, which are then shown, one after the other.
fn run_apart(rt: &HostRuntime, words: &str) {
    if let Ok(out) = create(rt, b"out") {
        if let Ok(err) = create(rt, b"err") {
            run_on(rt, words, Stream::File(&out), Stream::File(&err));
        }
    }
    show(rt, "out");
    show(rt, "err");
    let _ = descriptors::remove(rt, b"out");
    let _ = descriptors::remove(rt, b"err");
}

fn piece() -> [u8; 50000] {
    [b'h'; 50000]
}

// A report of 200,001 bytes, of which only byte 150,000 is chosen.
fn make_large(rt: &HostRuntime, name: &[u8], byte: &[u8]) {
    let same = piece();
    if let Ok(file) = create(rt, name) {
        let to = Stream::File(&file);
        for _ in 0..3 {
            let _ = write_all(to, &same);
        }
        let _ = write_all(to, byte);
        let _ = write_all(to, &same);
    }
}

// Reports that take several reads and differ in one byte; what is an answer, and what is a complaint or progress.
pub fn apart(rt: &HostRuntime) {
    make_large(rt, b"long", b"h");
    make_large(rt, b"changed", b"H");
    run_apart(rt, "seal long long.proof 3 2");
    show(rt, "long.proof.part");
    run_apart(rt, "verify long long.proof");
    run_apart(rt, "verify long long.proof 3 2");
    run_apart(rt, "verify changed long.proof");
    run_apart(rt, "seal changed changed.proof 3 2");
    run_apart(rt, "chain long long.proof");
    run_apart(rt, "seal none x.proof 3");
    run_apart(rt, "weigh");
}

// Every kind of answer to a stream that can only be read.
pub fn not_written(rt: &HostRuntime) {
    say(rt, b"> standard output cannot be written\n");
    if let Ok(file) = open_read(rt, b"report") {
        for words in [
            "verify report report.proof",
            "chain report report.proof",
            "info report.proof",
            "help",
            "--version",
            "seal report unsaid.proof 3 2",
        ] {
            run_on(rt, words, Stream::File(&file), output(rt));
        }
    }
    run(rt, "verify report unsaid.proof");
}

// The next file that is opened does not get the number of a standard descriptor.
fn occupied(rt: &HostRuntime) {
    if descriptors::occupy(rt) {
        if let Ok(file) = open_read(rt, b"report") {
            if 2 < file.as_raw_fd() {
                say(rt, b"the next file is none of the three\n");
            }
        }
    }
}

// A closed standard error is what stands in its place: /dev/null, open for reading. No program closes a standard descriptor of its own by
// the library; tests/program does that from outside, for all three and in each combination.
pub fn closed(rt: &HostRuntime) {
    say(rt, b"> standard error is closed\n");
    if let Ok(null) = open_read(rt, b"/dev/null") {
        run_on(
            rt,
            "seal report closed.proof 3 2",
            output(rt),
            Stream::File(&null),
        );
    }
    run(rt, "verify report closed.proof");
    say(rt, b"> standard input and standard error are closed\n");
    occupied(rt);
    make(rt, b"last", b"");
    show(rt, "last");
}
