// The system's errors, by their numbers as C names them, in words.
use std::io;

const EPERM: i32 = 1;

const ENOENT: i32 = 2;

const EIO: i32 = 5;

const EACCES: i32 = 13;

const ENOTDIR: i32 = 20;

const EISDIR: i32 = 21;

const EMFILE: i32 = 24;

const EFBIG: i32 = 27;

const ENOSPC: i32 = 28;

const EROFS: i32 = 30;

const ENAMETOOLONG: i32 = 36;

const ELOOP: i32 = 40;

const EILSEQ: i32 = 84;

// What an error says. By number and not by io::ErrorKind, which has no kind for EIO, EMFILE and EILSEQ.
pub fn in_words(error: io::Error) -> &'static [u8] {
    match error.raw_os_error() {
        Some(ENOENT) => b"no such file or folder",
        Some(EACCES | EPERM) => b"no permission",
        Some(EISDIR) => b"is a folder, not a file",
        Some(ENOTDIR) => b"a part of the path is no folder",
        Some(ENAMETOOLONG) => b"the path is too long",
        Some(ENOSPC) => b"no room on the disk",
        Some(EFBIG) => b"the file is too large for the disk or for its limit",
        Some(EROFS) => b"the disk can only be read",
        Some(ELOOP) => b"too many links on the way",
        Some(EMFILE) => b"too many open files",
        Some(EILSEQ) => b"the name is not UTF-8",
        Some(EIO) => b"the disk failed",
        _ => b"the system refused it",
    }
}
