// A seal carried to its end, and its proof kept.
ghost use Rattle.std.specs.Prelude.{◌≡◌, ◌+◌, ◌≤◌, length};
ghost use Rattle.base.specs.Limits.{max_challenges, IsDepth, IsMemory, IsCount};
ghost use Rattle.tree.specs.Walk.{nodes_in};
ghost use Rattle.file_head.specs.Layout.{file_size};
ghost use Rattle.run.specs.Rows.{continue_row};
ghost use Rattle.writing_theory.specs.Filed.{labels_anew};
ghost use Rattle.block_counts.specs.Seal.{seal_blocks};

use crate::{REFUSED, UNTRIED};
use base::{MAX_CHALLENGES, beyond};
use block_counts::seal_blocks;
use descriptors::Stream;
use file_head::{file_size, write_head};
use files::{keep_proof, make_part, remove_run, say_of_run};
use lines::{Line, complain, fact, fact_bytes, say};
use progress::{Labels, Progress};
use proof_file::check_file;
use run::{nodes, not_possible, store_size};
use sealing::{Seal, all_labels, seal_on};
use std::fs::File;
use std::rt::{Clock, Files};
use words::SealOrder;

// What is told of a seal: its order, its root, and its labels with their blocks.
#[derive(Clone, Copy, Debug, PartialEq, Eq)]
pub struct Facts {
    pub statement: [u8; 32],
    pub root: [u8; 32],
    pub depth: u64,
    pub count: u64,
    pub blocks: u64,
    pub hashes: u64,
}

// Labels and blocks are counted from the order, not added up, so that a seal which was resumed has those of one never stopped.
fn facts_of(seal: &Seal, root: [u8; 32]) -> Facts
    requires { IsDepth seal.now.run.depth × IsMemory seal.now.run.depth seal.now.run.memory × (seal.now.count ≤ max_challenges) }
    ensures blocks_value { result.blocks
        ≡ seal_blocks seal.now.run.edition seal.now.run.statement root seal.now.run.depth seal.now.run.memory seal.now.count }
    ensures hashes_value { result.hashes
        ≡ nodes_in seal.now.run.depth + labels_anew seal.now.run.depth seal.now.run.memory seal.now.count }
    ensures statement_value { (result.statement ≡ seal.now.run.statement) × (result.root ≡ root) × (result.depth ≡ seal.now.run.depth)
        × (result.count ≡ seal.now.count) }
{
    let run = &seal.run;
    Facts {
        statement: run.statement,
        root,
        depth: run.depth,
        count: seal.count,
        blocks: seal_blocks(
            run.edition,
            run.statement,
            root,
            run.depth,
            run.memory,
            seal.count,
        ),
        hashes: all_labels(run.depth, run.memory, seal.count),
    }
}

// One fact a line; the last one is there only if the proof stands under its name.
fn say_facts(facts: Facts, out: Stream<'_>, err: Stream<'_>) -> u8 {
    say(out, &fact_bytes(b"statement ", &facts.statement));
    say(out, &fact_bytes(b"root ", &facts.root));
    say(out, &fact(b"depth ", facts.depth));
    say(out, &fact(b"challenges ", facts.count));
    say(out, &fact(b"blocks ", facts.blocks));
    if say(out, &fact(b"hashes ", facts.hashes)) {
        return 0;
    }
    complain(
        err,
        b"standard output",
        b"could not be written; the proof stands",
    );
    UNTRIED
}

// PROOF.part with the proof's room. That of a killed run is known by its first 35 bytes, which have the numbers and the statement (all but
// its last byte, where the count takes two).
fn take_part<R: Files<File = File>>(
    rt: &R,
    seal: &Seal,
    size: usize,
    file: &mut [u8],
    proof: &[u8],
    err: Stream<'_>,
) -> Option<File> {
    let run = &seal.run;
    let _ = write_head(
        run.edition,
        run.statement,
        [0u8; 32],
        run.depth,
        seal.count,
        file,
    );
    make_part(rt, proof, file.get(..35)?, size, err)
}

// Whether the proof may have its name. One from a start is the tree's; one from a checkpoint is checked, since its labels may not be the
// report's.
fn is_good(facts: &Facts, resumed: bool, file: &[u8]) -> bool {
    !resumed || check_file(file, facts.statement, facts.depth, facts.count).is_ok()
}

// Gives the proof its name, removes the checkpoint and tells the facts.
fn keep<R: Files<File = File>>(
    rt: &R,
    part: File,
    facts: Facts,
    resumed: bool,
    file: &[u8],
    proof: &[u8],
    out: Stream<'_>,
    err: Stream<'_>,
) -> u8 {
    if !is_good(&facts, resumed, file) {
        drop(part);
        let why = Line::new().add(b"its labels are not the report's; remove it to begin anew");
        say_of_run(proof, &why, err);
        return REFUSED;
    }
    if !keep_proof(rt, part, proof, file, err) {
        return UNTRIED;
    }
    remove_run(rt, proof);
    say_facts(facts, out, err)
}

// A seal carried to its end over its proof's room. Some labels may be made already.
fn carry_in<R: Files<File = File> + Clock>(
    rt: &R,
    part: File,
    seal: Seal,
    seconds: u64,
    resumed: bool,
    store: &mut [u8],
    file: &mut [u8],
    proof: &[u8],
    out: Stream<'_>,
    err: Stream<'_>,
) -> u8
    requires run_goes_on { continue_row seal.run (length store.old) ≡ 0 }
    requires count { IsCount seal.count × (seal.done ≤ seal.count) }
    requires room { file_size seal.run.depth seal.count ≤ length file.old }
{
    let run = &seal.run;
    let size = file_size(run.depth, seal.count);
    let labels = Labels {
        depth: run.depth,
        all: all_labels(run.depth, run.memory, seal.count),
        made: all_labels(run.depth, run.memory, seal.done) - (nodes(run.depth) - run.made),
    };
    let mut progress = Progress::begin(rt, err, labels, seconds, resumed);
    let root = seal_on(rt, seal, store, file, proof, &mut progress);
    progress.finish();
    let facts = facts_of(&seal, root);
    keep(rt, part, facts, resumed, &file[..size], proof, out, err)
}

// A seal carried to its end.
fn carry<R: Files<File = File> + Clock>(
    rt: &R,
    seal: Seal,
    seconds: u64,
    resumed: bool,
    store: &mut [u8],
    file: &mut [u8],
    proof: &[u8],
    out: Stream<'_>,
    err: Stream<'_>,
) -> u8
    requires run_goes_on { continue_row seal.run (length store.old) ≡ 0 }
    requires count { IsCount seal.count × (seal.done ≤ seal.count) }
    requires room { file_size seal.run.depth seal.count ≤ length file.old }
{
    let size = file_size(seal.run.depth, seal.count);
    match take_part(rt, &seal, size, file, proof, err) {
        None => UNTRIED,
        Some(part) => carry_in(
            rt, part, seal, seconds, resumed, store, file, proof, out, err,
        ),
    }
}

// An order that was read and a checkpoint that is whole never come here. It is told all the same: with a call on each way out the compiler
// makes room on the stack first, and where it did so later it took a register that was in use (docs/DECISIONS.md).
fn not_carried(proof: &[u8], err: Stream<'_>) -> u8 {
    complain(err, proof, b"no such seal can be carried out");
    UNTRIED
}

// A seal from wherever it is. What is tested here is what carrying it asks for; an order that was read and a checkpoint that is whole pass it.
pub fn seal_from<R: Files<File = File> + Clock>(
    rt: &R,
    seal: Seal,
    order: SealOrder,
    resumed: bool,
    store: &mut [u8],
    file: &mut [u8],
    proof: &[u8],
    out: Stream<'_>,
    err: Stream<'_>,
) -> u8 {
    let run = &seal.run;
    let count = order.challenges;
    if not_possible(run.edition, run.depth, run.memory, run.made) || beyond(MAX_CHALLENGES, count) {
        return not_carried(proof, err);
    }
    let kept = store_size(run.memory) as usize;
    if store.len() < kept || file.len() < file_size(run.depth, count) {
        return not_carried(proof, err);
    }
    let first = Seal {
        count,
        done: seal.done.min(count),
        run: seal.run,
    };
    carry(
        rt,
        first,
        order.seconds,
        resumed,
        &mut store[..kept],
        file,
        proof,
        out,
        err,
    )
}
