// Files by their names. A name comes as bytes; the library takes UTF-8 alone, and another name cannot be opened.
use std::fs::{File, OpenOptions};
use std::rt::Files;
use std::{fs, io, str};

// What a name is told by that is not UTF-8: C's EILSEQ.
const NOT_UTF8: i32 = 84;

fn name_of(path: &[u8]) -> io::Result<&str> {
    match str::from_utf8(path) {
        Ok(name) => Ok(name),
        Err(_) => Err(io::Error::from_raw_os_error(NOT_UTF8)),
    }
}

// Opens a file for reading.
pub fn open_read<R: Files<File = File>>(rt: &R, path: &[u8]) -> io::Result<File> {
    fs::open(rt, name_of(path)?)
}

// Opens a file for reading and writing, and leaves its bytes as they are.
pub fn open_update<R: Files<File = File>>(rt: &R, path: &[u8]) -> io::Result<File> {
    OpenOptions::new()
        .read(true)
        .write(true)
        .open(rt, name_of(path)?)
}

// Opens a file that is there for appending: each write lands at its end.
pub fn open_append<R: Files<File = File>>(rt: &R, path: &[u8]) -> io::Result<File> {
    OpenOptions::new().append(true).open(rt, name_of(path)?)
}

// Opens a file for writing and empties it, or creates it where it is missing.
pub fn open_overwrite<R: Files<File = File>>(rt: &R, path: &[u8]) -> io::Result<File> {
    fs::create(rt, name_of(path)?)
}

// Creates a file, open for writing; fails where the name is taken.
pub fn create<R: Files<File = File>>(rt: &R, path: &[u8]) -> io::Result<File> {
    OpenOptions::new()
        .write(true)
        .create_new(true)
        .open(rt, name_of(path)?)
}

// Whether a name is taken: a link is followed.
pub fn exists<R: Files<File = File>>(rt: &R, path: &[u8]) -> io::Result<bool> {
    fs::exists(rt, name_of(path)?)
}

pub fn remove<R: Files<File = File>>(rt: &R, path: &[u8]) -> io::Result<()> {
    fs::remove_file(rt, name_of(path)?)
}

pub fn rename<R: Files<File = File>>(rt: &R, from: &[u8], to: &[u8]) -> io::Result<()> {
    fs::rename(rt, name_of(from)?, name_of(to)?)
}

pub fn make_folder<R: Files<File = File>>(rt: &R, path: &[u8]) -> io::Result<()> {
    fs::create_dir(rt, name_of(path)?)
}

// What the system tells of the file that a name leads to.
pub fn told_of<R: Files<File = File>>(rt: &R, path: &[u8]) -> io::Result<fs::Metadata> {
    fs::metadata(rt, name_of(path)?)
}

// The same; of a link it tells of the link itself, as rename renames it.
pub fn told_of_link<R: Files<File = File>>(rt: &R, path: &[u8]) -> io::Result<fs::Metadata> {
    fs::symlink_metadata(rt, name_of(path)?)
}
