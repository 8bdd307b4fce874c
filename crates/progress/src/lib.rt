// How far a seal is, told by the clock: on a terminal in one line that is written over each second, elsewhere in a line a minute; and when
// the next checkpoint is due.
#![tactic(auto)]

mod due; // due.rt: when a checkpoint is due
mod telling; // telling.rt: what is told, and when

use descriptors::Stream;

// How many labels a tree of a depth has, and how many of them are made.
#[derive(Clone, Copy, Debug, PartialEq, Eq)]
pub struct Labels {
    pub depth: u64,
    pub all: u64,
    pub made: u64,
}

// Times are in milliseconds. `first` labels were made before this process began. `ended` says that the checkpoint on the disk is of the
// finished run, so that openings go behind it.
#[derive(Clone, Copy)]
pub struct Progress<'a> {
    pub err: Stream<'a>,
    terminal: bool,
    labels: Labels,
    first: u64,
    start: u64,
    shown: u64,
    kept: u64,
    every: u64,
    told: bool,
    pub ended: bool,
}
