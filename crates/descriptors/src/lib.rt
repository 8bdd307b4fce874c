// What the programs ask of the system: streams and files that are open, files by their names, processes and the time.
#![tactic(auto)]

mod clock; // clock.rt: the time that has passed
mod named_files; // named_files.rt: files by their names
mod process; // process.rt: processes by their numbers
mod same_file; // same_file.rt: whether a name leads to the file that is open
mod small_file; // small_file.rt: small files of text, and numbers in them
mod standard_streams; // standard_streams.rt: descriptors 0, 1 and 2 occupied
mod stream; // stream.rt: an open stream, read and written
mod whole_input; // whole_input.rt: a stream read to its end

pub use clock::milliseconds;
pub use named_files::{
    create, exists, make_folder, open_append, open_overwrite, open_read, open_update, remove,
    rename,
};
pub use process::{Process, process_at};
pub use same_file::names;
pub use small_file::{number_in, read_small};
pub use standard_streams::occupy;
pub use stream::{Stream, is_terminal, read, write_all};
pub use whole_input::{Input, follows, read_whole};
