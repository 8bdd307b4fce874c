// Usage, and what is wrong with the words.
use crate::UNTRIED;
use base::{MAX_CHALLENGES, NEW_EDITION, beyond};
use descriptors::Stream;
use lines::{Line, complain, say, say_text};
use run::{nodes, not_possible};
use sealing::all_labels;
use words::{Problem, SealOrder};

// What `help` prints, and `mastdock` alone.
fn usage(to: Stream<'_>) -> bool {
    say_text(
        to,
        b"usage:\n  mastdock seal REPORT PROOF DEPTH [CHALLENGES [MEMORY]] [--every SECONDS]\n  mastdock verify REPORT PROOF [DEPTH CHALLENGES | --at-least DEPTH CHALLENGES]\n  mastdock chain REPORT PROOF\n  mastdock info PROOF\n  mastdock help | --help | --version\nseal    hashes 2^(DEPTH+1) - 1 labels of the report, one after the other, and writes PROOF\n        DEPTH 1 to 40, CHALLENGES 1 to 200 (150), MEMORY 0 to 14 and at most DEPTH\n        every SECONDS, 0 to 3600 (60), it leaves PROOF.run, from which the same command goes on\nverify  checks PROOF against REPORT; DEPTH and CHALLENGES are those of PROOF if not given\n        its last line begins 'accepted' or 'refused'\nchain   prints the nodes on the opened leaves' ways to the root, in labelling order\ninfo    prints what PROOF says of itself, unchecked\nREPORT may be - for standard input. Exit status: 0 sealed, accepted, drawn, told; 1 refused;\n2 could not be tried, for its words or for files.\n",
    )
}

fn status_of(said: bool, err: Stream<'_>) -> u8 {
    if said {
        return 0;
    }
    complain(err, b"standard output", b"could not be written whole");
    UNTRIED
}

// Prints the usage.
pub fn tell_usage(out: Stream<'_>, err: Stream<'_>) -> u8 {
    status_of(usage(out), err)
}

// Prints the program's version, and the edition of the proofs that it writes.
pub fn tell_version(out: Stream<'_>, err: Stream<'_>) -> u8 {
    status_of(say_text(out, b"mastdock 0.9 (edition 2)\n"), err)
}

// Prints one line for a problem with the words, or the usage where there is none.
pub fn advise(problem: Problem, word: &[u8], err: Stream<'_>) -> u8 {
    match problem {
        Problem::NoWord => {
            usage(err);
        }
        Problem::UnknownWord => complain(
            err,
            word,
            b"no such word; 'mastdock help' shows the usage",
        ),
        Problem::Missing => complain(err, word, b"too few words; 'mastdock help' shows the usage"),
        Problem::Surplus => complain(
            err,
            word,
            b"too many words; 'mastdock help' shows the usage",
        ),
        Problem::NoPath => complain(err, b"REPORT or PROOF", b"an empty name"),
        Problem::LongPath => complain(
            err,
            b"REPORT or PROOF",
            b"the path is too long (at most 4090 bytes)",
        ),
        Problem::Depth => complain(err, b"DEPTH", b"must be a number from 1 to 40"),
        Problem::Challenges => complain(err, b"CHALLENGES", b"must be a number from 1 to 200"),
        Problem::Memory => complain(
            err,
            b"MEMORY",
            b"must be a number from 0 to 14, at most DEPTH",
        ),
        Problem::Seconds => complain(err, b"SECONDS", b"must be a number from 0 to 3600"),
    }
    UNTRIED
}

// An empty report can be sealed; prints one line that it is empty, and none for another.
pub fn note_empty(size: u64, report: &[u8], err: Stream<'_>) {
    if size == 0 {
        complain(
            err,
            report,
            b"the report is empty; its statement is that of no bytes",
        );
    }
}

fn say_anew(memory: u64, anew: u64, tree: u64, err: Stream<'_>) {
    let told = lines::anew(memory, anew, tree);
    say(err, &Line::new().add(b"mastdock: ").add_line(&told));
}

// Tells of a memory level at which the openings make more labels anew than the tree has.
pub fn note_anew(order: SealOrder, err: Stream<'_>) {
    if not_possible(NEW_EDITION, order.depth, order.memory, 0)
        || beyond(MAX_CHALLENGES, order.challenges)
    {
        return;
    }
    let tree = nodes(order.depth);
    let anew = all_labels(order.depth, order.memory, order.challenges) - tree;
    if tree < anew {
        say_anew(order.memory, anew, tree, err);
    }
}
