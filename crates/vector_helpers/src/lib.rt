// What the vector programs share: a line of vectors read, text and numbers printed, and runs, openings and files carried to their end.
#![tactic(auto)]

mod carried; // carried.rt: runs and openings
mod filled; // filled.rt: the leaves of challenges, and digests of chains
mod levels; // levels.rt: the edges of the memory level's limit
mod show; // show.rt: bytes and sameness printed
mod stamping; // stamping.rt: what is stamped, and its store and file
mod vectors; // vectors.rt: the fields of a line of vectors

pub use carried::{
    NO_WORK, digest_column, digest_of, flag_digest, hash, hash_run, named_digest, open_to_end,
    run_to_end,
};
pub use filled::{challenged, most, places_digest};
pub use levels::{EDITIONS, LEVEL_EDGES, LevelEdge, level_edge};
pub use show::{Hex, IsSame, named_hex};
pub use stamping::Stamping;
pub use vectors::{decimal, decode, decoded, digest, each_vector, field, is_comment, line_end};
