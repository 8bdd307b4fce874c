// The report's statement, hashed in portions.
ghost use Rattle.std.specs.Prelude.{◌≡◌, ◌↔◌, IsTrue, take, IfOk, OnErr};
ghost use Rattle.base.specs.Number.{outcome_number};
ghost use Rattle.sha256.specs.Portions.{update_row, update_state, finish_row, finish_digest};

use crate::Name;
use base::Refusal;
use descriptors::{Stream, open_read, read};
use lines::{complain, or_complain};
use sha256::Hash;
use std::fs::File;
use std::io;
use std::rt::Files;

// How many bytes a report has, and its statement.
#[derive(Clone, Copy, Debug, PartialEq, Eq)]
pub struct Stated {
    pub size: u64,
    pub statement: [u8; 32],
}

// The hash of all that was read, and the answer of the last portion.
#[derive(Clone, Copy)]
struct Taken {
    last: io::Result<usize>,
    hash: Hash,
}

// What a report is told by that has more bytes than can be hashed, or than so many reads give.
fn too_large() -> io::Error {
    io::Error::from(io::ErrorKind::FileTooLarge)
}

// Reads once, hashes what came, and answers how many bytes that was.
fn take_portion(from: Stream<'_>, hash: &mut Hash, space: &mut [u8]) -> io::Result<usize>
    ensures hashed { IfOk result (λ size. (update_row hash.old (take size space.new) ≡ 0) × (hash.new ≡ update_state hash.old (take size space.new))) }
    ensures failed { OnErr result (hash.new ≡ hash.old) }
{
    let size = read(from, space)?;
    match hash.update(&space[..size]) {
        Ok(()) => Ok(size),
        Err(_) => Err(too_large()),
    }
}

// All is hashed if the last read gave nothing and did not fail.
fn is_all(given: io::Result<usize>) -> bool
    ensures { IsTrue result ↔ (given ≡ Ok 0) }
{
    match given {
        Ok(size) => size == 0,
        Err(_) => false,
    }
}

// Hashes until a read gives nothing, in at most 2^64 − 1 portions; good only if that read found the end.
fn take_all(from: Stream<'_>) -> io::Result<Taken>
    ensures { IfOk result (λ taken. taken.last ≡ Ok 0) }
{
    let mut space = [0u8; 65536];
    let mut hash = Hash::new();
    for _ in 0..u64::MAX {
        let last = take_portion(from, &mut hash, &mut space);
        if is_all(last) {
            return Ok(Taken { last, hash });
        }
        last?;
    }
    Err(too_large())
}

// The statement of all that was taken.
fn statement_of(hash: &Hash) -> Result<Stated, Refusal>
    ensures outcome_value { outcome_number result ≡ finish_row hash.now }
    ensures stated { IfOk result (λ s. (s.size ≡ hash.now.taken) × (s.statement ≡ finish_digest hash.now)) }
{
    let statement = hash.finish()?.digest;
    Ok(Stated {
        size: hash.taken,
        statement,
    })
}

fn state(from: Stream<'_>) -> io::Result<Stated> {
    let taken = take_all(from)?;
    statement_of(&taken.hash).map_err(|_| too_large())
}

// A report open for reading; none is opened for `-`, which is standard input.
fn open_report<R: Files<File = File>>(rt: &R, path: &[u8]) -> io::Result<Option<File>> {
    if path == b"-".as_slice() {
        return Ok(None);
    }
    Ok(Some(open_read(rt, path)?))
}

// The stream that a report is read from.
fn stream_of<'a>(opened: &'a Option<File>, input: Stream<'a>) -> Stream<'a> {
    match opened {
        Some(file) => Stream::File(file),
        None => input,
    }
}

// The endings of the files that a seal writes beside its proof.
const ENDINGS: [&[u8]; 5] = [b".part", b".run", b".new", b".lock", b".kept"];

// Whether an open file is one of those that a seal writes beside its proof.
fn is_own<R: Files<File = File>>(rt: &R, open: Stream<'_>, proof: &[u8]) -> bool {
    ENDINGS.iter().any(|ending| descriptors::names(rt, open, Name::beside(proof, ending).path()))
}

// Whether the report is no file that a seal of this proof writes; by whatever name it is reached. `input` is standard input.
pub fn is_apart<R: Files<File = File>>(
    rt: &R,
    path: &[u8],
    proof: &[u8],
    input: Stream<'_>,
    err: Stream<'_>,
) -> bool {
    let Some(opened) = or_complain(open_report(rt, path), err, path) else {
        return false;
    };
    let own = is_own(rt, stream_of(&opened, input), proof);
    if own {
        complain(
            err,
            path,
            b"the report is a file that sealing this proof writes; give the proof another name",
        );
    }
    !own
}

// The statement of a report, hashed in portions, or none, and a line that tells why. `input` is standard input.
pub fn state_report<R: Files<File = File>>(
    rt: &R,
    path: &[u8],
    input: Stream<'_>,
    err: Stream<'_>,
) -> Option<Stated> {
    let opened = or_complain(open_report(rt, path), err, path)?;
    or_complain(state(stream_of(&opened, input)), err, path)
}
