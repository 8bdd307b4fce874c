// The folder of a file, synced, so that a power cut does not take the file's name.
ghost use Rattle.std.specs.Prelude.{◌≡◌, ◌≤◌, length};
ghost use Rattle.files.specs.Folder.{folder_length};

use descriptors::open_read;
use std::fs::File;
use std::io;
use std::rt::Files;

// How many bytes a path has up to its last slash, that one included.
fn folder_length(path: &[u8]) -> usize
    ensures value { result ≡ folder_length path.now }
    ensures bound { result ≤ length path.now }
{
    let mut end = 0;
    for (i, byte) in path.iter().enumerate() {
        if *byte == b'/' {
            end = i + 1;
        }
    }
    end
}

// Waits until the disk has the names in the folder of a path.
pub fn sync_folder<R: Files<File = File>>(rt: &R, path: &[u8]) -> io::Result<()> {
    let folder = match folder_length(path) {
        0 => open_read(rt, b".")?,
        end => open_read(rt, &path[..end])?,
    };
    folder.sync_all()
}
