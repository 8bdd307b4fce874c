// `seal`: the report's statement, labels, openings and the proof file.
use crate::advice::{note_anew, note_empty};
use crate::resume::resume;
use crate::sealed::seal_from;
use crate::{REFUSED, UNTRIED};
use base::{MAX_FILE, MAX_STORE, NEW_EDITION};
use checkpoint::MAX_CHECKPOINT;
use descriptors::Stream;
use files::{
    NotHeld, empty_file, hold, is_apart, is_free, load_run, may_save, release, state_report,
};
use run::new_run;
use sealing::Seal;
use std::fs::File;
use std::rt::{Clock, Files};
use words::SealOrder;

// Room for the longest checkpoint and for the openings behind it.
const SPACE: usize = MAX_CHECKPOINT + MAX_FILE;

fn empty_space() -> [u8; SPACE] {
    [0u8; SPACE]
}

// A store for every memory level.
pub fn empty_store() -> [u8; MAX_STORE] {
    [0u8; MAX_STORE]
}

// A seal from its start, of the edition of new runs.
fn seal_anew<R: Files<File = File> + Clock>(
    rt: &R,
    statement: [u8; 32],
    order: SealOrder,
    proof: &[u8],
    out: Stream<'_>,
    err: Stream<'_>,
) -> u8 {
    let seal = Seal {
        count: order.challenges,
        done: 0,
        run: new_run(NEW_EDITION, statement, order.depth, order.memory),
    };
    let mut store = empty_store();
    let mut file = empty_file();
    seal_from(
        rt, seal, order, false, &mut store, &mut file, proof, out, err,
    )
}

// From its checkpoint if there is one, else from its start.
fn seal_held<R: Files<File = File> + Clock>(
    rt: &R,
    statement: [u8; 32],
    order: SealOrder,
    proof: &[u8],
    out: Stream<'_>,
    err: Stream<'_>,
) -> u8 {
    if !is_free(rt, proof, err) || !may_save(rt, proof, b"mastdock run 1\n", err) {
        return UNTRIED;
    }
    let mut space = empty_space();
    match load_run(rt, proof, &mut space, err) {
        Err(_) => UNTRIED,
        Ok(None) => seal_anew(rt, statement, order, proof, out, err),
        Ok(Some(size)) => resume(rt, &space, size, statement, order, proof, out, err),
    }
}

// Seals a report, if no other run works on the proof.
pub fn seal<R: Files<File = File> + Clock>(
    rt: &R,
    report: &[u8],
    proof: &[u8],
    order: SealOrder,
    input: Stream<'_>,
    out: Stream<'_>,
    err: Stream<'_>,
) -> u8 {
    if !is_free(rt, proof, err) || !is_apart(rt, report, proof, input, err) {
        return UNTRIED;
    }
    let Some(stated) = state_report(rt, report, input, err) else {
        return UNTRIED;
    };
    note_empty(stated.size, report, err);
    note_anew(order, err);
    match hold(rt, proof, err) {
        Err(NotHeld::Busy) => REFUSED,
        Err(NotHeld::Failed) => UNTRIED,
        Ok(()) => {
            let status = seal_held(rt, stated.statement, order, proof, out, err);
            release(rt, proof);
            status
        }
    }
}
