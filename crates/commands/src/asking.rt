// Report and proof read, and what is asked of them told.
use crate::UNTRIED;
use crate::advice::note_empty;
use crate::telling::{tell_chain, tell_info, tell_verdict};
use descriptors::Stream;
use drawing_text::{found_in, larger};
use files::{empty_file, load_proof, state_report};
use std::fs::File;
use std::rt::Files;
use words::Order;

// Prints what an order asks of a proof: the chain, or the verdict by the depth and count of the head, by those given, or by those at least.
fn tell(order: Order, file: &[u8], statement: [u8; 32], out: Stream<'_>, err: Stream<'_>) -> u8 {
    let found = found_in(file, statement);
    let (depth, count) = match order {
        Order::Chain => return tell_chain(file, statement, out, err),
        Order::VerifyAs(wanted) => (wanted.depth, wanted.challenges),
        Order::VerifyAtLeast(least) => (
            larger(least.depth, found.depth),
            larger(least.challenges, found.count),
        ),
        _ => (found.depth, found.count),
    };
    tell_verdict(file, statement, depth, count, out, err)
}

// Reads both files, or prints one line on `err` for what cannot be read; a line also tells that the report is empty.
pub fn ask<R: Files<File = File>>(
    rt: &R,
    order: Order,
    report: &[u8],
    proof: &[u8],
    input: Stream<'_>,
    out: Stream<'_>,
    err: Stream<'_>,
) -> u8 {
    let Some(stated) = state_report(rt, report, input, err) else {
        return UNTRIED;
    };
    note_empty(stated.size, report, err);
    let mut file = empty_file();
    match load_proof(rt, proof, &mut file, err) {
        Some(size) => tell(order, &file[..size], stated.statement, out, err),
        None => UNTRIED,
    }
}

// Prints what a proof says of itself.
pub fn info<R: Files<File = File>>(rt: &R, proof: &[u8], out: Stream<'_>, err: Stream<'_>) -> u8 {
    let mut file = empty_file();
    match load_proof(rt, proof, &mut file, err) {
        Some(size) => tell_info(&file[..size], out, err),
        None => UNTRIED,
    }
}
