// The program: it does what its arguments ask.
#![tactic(auto)]

use descriptors::Stream;
use std::fs::File;
use std::process::ExitCode;
use std::rt::{Clock, Env, Files};

// Does what the program's arguments ask, with answers on standard output, and progress and complaints on standard error. 0 if it is done, 1
// if it is refused, 2 if it could not be tried.
pub fn mastdock_main<R: Env + Files<File = File> + Clock>(
    rt: &R,
    input: Stream<'_>,
    out: Stream<'_>,
    err: Stream<'_>,
) -> u8 {
    commands::run_arguments(rt, input, out, err)
}

fn main(rt: HostRuntime) -> ExitCode {
    let input = Stream::Input(rt.stdin());
    let out = Stream::Output(rt.stdout());
    let err = Stream::Error(rt.stderr());
    ExitCode::from(mastdock_main(&rt, input, out, err))
}
