// Whether a name leads to the very file that a descriptor has open.
ghost use Rattle.std.specs.Prelude.{◌≡◌};
ghost use Rattle.descriptors.specs.SameFile.{same_file};

use crate::Stream;
use crate::named_files::{told_of, told_of_link};
use std::fs::{File, Metadata};
use std::io;
use std::os::unix::fs::MetadataExt;
use std::rt::Files;

// A file's device and its number there.
#[derive(Clone, Copy, Debug, PartialEq, Eq)]
pub struct FileId {
    pub device: u64,
    pub number: u64,
}

impl From<Metadata> for FileId {
    fn from(told: Metadata) -> FileId {
        FileId {
            device: told.dev(),
            number: told.ino(),
        }
    }
}

// The library tells of a file that it has open, and of a standard stream by its name.
fn id_of_open<R: Files<File = File>>(rt: &R, open: Stream<'_>) -> io::Result<FileId> {
    let told = match open {
        Stream::Input(_) => told_of(rt, b"/proc/self/fd/0"),
        Stream::Output(_) => told_of(rt, b"/proc/self/fd/1"),
        Stream::Error(_) => told_of(rt, b"/proc/self/fd/2"),
        Stream::File(file) => file.metadata(),
    };
    Ok(FileId::from(told?))
}

// Of a link it tells of the link itself, as rename renames it.
fn id_of_name<R: Files<File = File>>(rt: &R, path: &[u8]) -> io::Result<FileId> {
    Ok(FileId::from(told_of_link(rt, path)?))
}

// Whether both are known, and are of one file.
pub fn is_same(a: io::Result<FileId>, b: io::Result<FileId>) -> bool
    ensures { result ≡ same_file a b }
{
    match (a, b) {
        (Ok(a), Ok(b)) => a == b,
        _ => false,
    }
}

// Whether the name leads to the file that is open. While it is open its number is given to no other file.
pub fn names<R: Files<File = File>>(rt: &R, open: Stream<'_>, path: &[u8]) -> bool {
    path.len() < 4096 && is_same(id_of_open(rt, open), id_of_name(rt, path))
}
