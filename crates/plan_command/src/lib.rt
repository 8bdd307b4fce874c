// The planning program over streams. What it prints is `printed` of planning's specs/Output.antt.
#![tactic(auto)]

ghost use Rattle.std.specs.Prelude.{◌+◌, ◌≡◌};
ghost use Rattle.base.specs.Bytes.{zeros};
ghost use Rattle.base.specs.Limits.{max_input};
ghost use Rattle.planning.specs.Output.{max_output};

use base::MAX_INPUT;
use descriptors::{Stream, read_whole, write_all};
use planning::MAX_OUTPUT;

// One byte more than an input may have.
fn input_space() -> [u8; MAX_INPUT + 1]
    ensures { result ≡ zeros (max_input + 1) }
{
    [0; MAX_INPUT + 1]
}

// As much as is ever printed.
fn output_space() -> [u8; MAX_OUTPUT]
    ensures { result ≡ zeros max_output }
{
    [0; MAX_OUTPUT]
}

// Reads an input, and answers it; an input that cannot be read and an answer that cannot be written are told.
pub fn plan(from: Stream<'_>, to: Stream<'_>, err: Stream<'_>) {
    let mut space = input_space();
    let input = read_whole(from, &mut space);
    if input.failure.is_some() {
        let _ = write_all(err, b"plan: the input could not be read\n");
        return;
    }
    let mut output = output_space();
    let count = planning::answer(&space[..input.size], &mut output);
    let written = output
        .get(..count)
        .is_some_and(|text| write_all(to, text).is_ok());
    if !written {
        let _ = write_all(err, b"plan: the answer could not be written\n");
    }
}
