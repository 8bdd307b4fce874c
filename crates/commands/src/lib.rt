// The program's words: seal a report, verify a proof, draw its chain, tell of a proof. Everything is told by lines on two streams and by a
// status: 0 done, 1 refused, 2 could not be tried.
#![tactic(auto)]

mod advice; // advice.rt: usage, and what is wrong with the words
mod arguments; // arguments.rt: the program's arguments as one line of words
mod asking; // asking.rt: report and proof read, and what is asked of them told
mod resume; // resume.rt: a seal gone on with from its checkpoint
mod seal; // seal.rt: the word `seal`
mod sealed; // sealed.rt: a seal carried to its end, and its proof kept
mod telling; // telling.rt: verdict, chain, clash and facts written

use advice::{advise, tell_usage, tell_version};
pub use arguments::run_arguments;
use asking::{ask, info};
use descriptors::Stream;
use lines::complain;
use seal::seal;
use std::fs::File;
use std::rt::{Clock, Files};
pub use telling::say_clash;
use words::Order;

// The status of what is refused, and of what could not be tried, for its words or for files.
const REFUSED: u8 = 1;

const UNTRIED: u8 = 2;

// Does what a line of words asks, each word ended by a byte 0. `input` is standard input; answers go to `out`, progress and complaints to
// `err`. No file is opened before the standard descriptors are occupied.
pub fn command<R: Files<File = File> + Clock>(
    rt: &R,
    line: &[u8],
    input: Stream<'_>,
    out: Stream<'_>,
    err: Stream<'_>,
) -> u8 {
    if descriptors::occupy(rt) {
        return obey(rt, line, input, out, err);
    }
    complain(
        err,
        b"/dev/null",
        b"cannot be opened in place of a closed standard descriptor",
    );
    UNTRIED
}

fn obey<R: Files<File = File> + Clock>(
    rt: &R,
    line: &[u8],
    input: Stream<'_>,
    out: Stream<'_>,
    err: Stream<'_>,
) -> u8 {
    let report = words::report(line);
    let proof = words::proof(line);
    match words::read_order(line) {
        Err(problem) => advise(problem, words::word(line, 0), err),
        Ok(Order::Seal(order)) => seal(rt, report, proof, order, input, out, err),
        Ok(Order::Info) => info(rt, proof, out, err),
        Ok(Order::Help) => tell_usage(out, err),
        Ok(Order::Version) => tell_version(out, err),
        Ok(order) => ask(rt, order, report, proof, input, out, err),
    }
}
