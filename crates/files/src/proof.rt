// A proof file in memory.
ghost use Rattle.std.specs.Prelude.{IfSome};
ghost use Rattle.descriptors.specs.Counts.{IsPrefixLen};

use descriptors::{Stream, follows, open_read, read_whole};
use lines::{complain, complain_of, or_complain};
use std::fs::File;
use std::rt::Files;

// Reads a proof file whole into a place that holds any proof, and answers how many bytes it has, or tells why it cannot be read.
pub fn load_proof<R: Files<File = File>>(
    rt: &R,
    path: &[u8],
    place: &mut [u8],
    err: Stream<'_>,
) -> Option<usize>
    ensures { IfSome result (λ size. IsPrefixLen size place.new) }
{
    let file = or_complain(open_read(rt, path), err, path)?;
    let open = Stream::File(&file);
    let input = read_whole(open, place);
    if let Some(why) = input.failure {
        complain_of(err, path, why);
        return None;
    }
    if or_complain(follows(open), err, path)? {
        complain(err, path, b"larger than any proof can be (262468 bytes)");
        return None;
    }
    Some(input.size)
}
