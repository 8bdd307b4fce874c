// Files written, opened and checked, openings compared, and chains drawn and planned, in both editions: the shared files, of which those of
// edition 1 are the standard input, and the shared checks and chains, which are data as the files of edition 2 are. The chains of edition 2 are
// an independent model's. The stored output has the vectors' digests and answers, and that model's.
#![tactic(auto)]

mod challenged; // challenged.rt: the openings of the shared files
mod checks; // checks.rt: files checked, and the rows of a challenge and of a head
mod compared; // compared.rt: openings compared
mod drawn; // drawn.rt: chains drawn and planned
mod edges; // edges.rt: refusals of starting and continuing to write a file
mod parts; // parts.rt: openings read as parts
mod written; // written.rt: the shared files written again

use challenged::challenged;
use checks::checked;
use compared::compared;
use descriptors::{Stream, read_small, read_whole};
use drawn::drawn_and_planned;
use edges::edges;
use std::io::Stdout;
use vector_helpers::each_vector;
use written::written;

// The files of an edition. What cannot be written, here and below, is passed over.
fn shared_files(to: Stdout, edition: u64, text: &[u8]) {
    each_vector(text, |line| {
        let _ = written(to, edition, line);
    });
    each_vector(text, |line| {
        let _ = challenged(to, edition, line);
    });
}

// The files of edition 1 are the standard input, of which at most 65,536 bytes are read.
fn first_files(to: Stdout, from: Stream<'_>) {
    let mut text = [0u8; 65536];
    let size = read_whole(from, &mut text).size;
    shared_files(to, 1, &text[..size]);
}

// Those of edition 2 are a file of data; one that cannot be read counts as empty, here and below.
fn second_files(rt: &HostRuntime, to: Stdout) {
    let mut text = [0u8; 65536];
    let size = read_small(rt, b"files-2", &mut text);
    shared_files(to, 2, &text[..size]);
}

// The checks of a file of data, in which each proof says its edition; then, if asked for, every file that differs from the first of them in one
// bit.
fn shared_checks(rt: &HostRuntime, to: Stdout, name: &[u8], with_bits: bool) {
    let mut text = [0u8; 65536];
    let size = read_small(rt, name, &mut text);
    each_vector(&text[..size], |line| {
        let _ = checked(to, line);
    });
    if with_bits {
        let _ = checks::first(to, &text[..size]);
    }
}

fn shared_chains(rt: &HostRuntime, to: Stdout, edition: u64, name: &[u8]) {
    let mut text = [0u8; 65536];
    let size = read_small(rt, name, &mut text);
    each_vector(&text[..size], |line| {
        let _ = drawn_and_planned(to, edition, line);
    });
}

fn main(rt: HostRuntime) {
    let to = rt.stdout();
    first_files(to, Stream::Input(rt.stdin()));
    second_files(&rt, to);
    let _ = edges(to);
    shared_checks(&rt, to, b"checks", true);
    shared_checks(&rt, to, b"checks-2", true);
    shared_checks(&rt, to, b"checks-number", false);
    let _ = checks::rows(to);
    shared_chains(&rt, to, 1, b"chains");
    shared_chains(&rt, to, 2, b"chains-2");
    let _ = compared(to, 1);
    let _ = compared(to, 2);
    let _ = compared::edges(to);
}
