// W-208: units of 1 to 8 runs, each line of the standard input a unit and its calls. The stored output is an independent model's.
#![tactic(auto)]

mod answers; // answers.rt: what a call answered, the whole unit, and where the stores lie
mod calls; // calls.rt: a line's calls over a store of its length
mod given; // given.rt: the unit that a line gives

use calls::line_calls;
use descriptors::{Stream, read_whole};
use vector_helpers::each_vector;

// At most 65,536 bytes are read, and what cannot be written is passed over.
fn main(rt: HostRuntime) {
    let to = rt.stdout();
    let mut text = [0u8; 65536];
    let size = read_whole(Stream::Input(rt.stdin()), &mut text).size;
    each_vector(&text[..size], |line| {
        let _ = line_calls(to, line);
    });
}
