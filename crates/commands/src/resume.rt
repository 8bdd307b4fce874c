// A seal gone on with from its checkpoint.
ghost use Rattle.lines.specs.Line.{IsInRoom};

use crate::seal::empty_store;
use crate::sealed::seal_from;
use crate::{REFUSED, UNTRIED};
use base::MAX_DEPTH;
use checkpoint::Fault;
use descriptors::Stream;
use files::{empty_file, say_of_run};
use lines::Line;
use run::nodes;
use sealing::{Seal, take_up};
use std::fs::File;
use std::rt::{Clock, Files};
use words::SealOrder;

fn sentence(text: &[u8]) -> Line
    ensures { IsInRoom result }
{
    Line::new().add(text)
}

fn refuse(proof: &[u8], why: &[u8], err: Stream<'_>) -> u8 {
    say_of_run(proof, &sentence(why), err);
    REFUSED
}

// Whether a number of the checkpoint's order is not the one ordered now, and a line if so.
fn differs(
    proof: &[u8],
    before: &[u8],
    is: u64,
    after: &[u8],
    ordered: u64,
    err: Stream<'_>,
) -> bool {
    if is != ordered {
        let what = Line::new().add_field(before, is).add_field(after, ordered);
        say_of_run(proof, &what, err);
    }
    is != ordered
}

// Whether the checkpoint is of another order: a line for each thing that differs.
fn is_other(
    seal: &Seal,
    statement: [u8; 32],
    order: SealOrder,
    proof: &[u8],
    err: Stream<'_>,
) -> bool {
    let run = &seal.run;
    let report = run.statement != statement;
    if report {
        say_of_run(proof, &sentence(b"of another report"), err);
    }
    let depth = differs(proof, b"of depth ", run.depth, b", not ", order.depth, err);
    let count = differs(
        proof,
        b"with ",
        seal.count,
        b" challenges, not ",
        order.challenges,
        err,
    );
    let memory = differs(
        proof,
        b"of memory level ",
        run.memory,
        b", not ",
        order.memory,
        err,
    );
    report || depth || count || memory
}

// From where it goes on.
fn tell_place(seal: &Seal, proof: &[u8], err: Stream<'_>) {
    let run = &seal.run;
    if MAX_DEPTH < run.depth {
        return;
    }
    let all = nodes(run.depth);
    let place = if run.made < all {
        lines::resumed_at(run.made, all)
    } else if seal.done < seal.count {
        lines::resumed_opening(seal.done + 1, seal.count)
    } else {
        sentence(b"all openings are made")
    };
    say_of_run(proof, &place, err);
}

fn go_on<R: Files<File = File> + Clock>(
    rt: &R,
    bytes: &[u8],
    statement: [u8; 32],
    order: SealOrder,
    proof: &[u8],
    out: Stream<'_>,
    err: Stream<'_>,
) -> u8 {
    let mut store = empty_store();
    let mut file = empty_file();
    let why: &[u8] = match take_up(bytes, &mut store, &mut file) {
        Ok(seal) if is_other(&seal, statement, order, proof, err) => return REFUSED,
        Ok(seal) => {
            tell_place(&seal, proof, err);
            return seal_from(
                rt, seal, order, true, &mut store, &mut file, proof, out, err,
            );
        }
        Err(Fault::Foreign) => b"no checkpoint of this program; it is left as it is",
        Err(Fault::Damaged) => b"damaged or cut off; it is left as it is",
        Err(Fault::Impossible) => b"of no run that can be; it is left as it is",
    };
    refuse(proof, why, err)
}

// Goes on from a checkpoint that stands in the front of a place.
pub fn resume<R: Files<File = File> + Clock>(
    rt: &R,
    space: &[u8],
    size: usize,
    statement: [u8; 32],
    order: SealOrder,
    proof: &[u8],
    out: Stream<'_>,
    err: Stream<'_>,
) -> u8 {
    match space.get(..size) {
        Some(bytes) => go_on(rt, bytes, statement, order, proof, out, err),
        None => UNTRIED,
    }
}
