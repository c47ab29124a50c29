//! Names and paths of directory entries, as bytes, and what all crates share: the refusals, the limits,
//! the sizes of a cache. Nothing here takes memory.
#![tactic(auto)]

mod components;
mod fault;
mod fnv;
mod kind;
mod last;
mod laws;
mod limits;
mod name;
mod path;
mod refusal;
mod sizes;
mod tables;
mod words;

pub use components::{Components, first_part, first_part_hashed};
pub use fault::{NoMemory, TextFault};
pub use fnv::hash;
pub use kind::Kind;
pub use last::Last;
pub use laws::{no_piece_is_longer, parts_are_names_or_dots};
pub use limits::{
    BUCKET_ROWS, MOST_BUCKETS, MOST_COUNT, MOST_ERRNO, MOST_INODES, MOST_INPUT, MOST_LINKS,
    MOST_LOADS, MOST_NAMES, MOST_PINNED, MOST_READS, MOST_ROWS, MOST_TABLE_BUCKETS,
    MOST_TABLE_INODES, MOST_TABLE_ROWS, MOST_TOUCHED, MOST_USED, MOST_USED_BYTES, NAME_MAX,
    NUMBER_LIMIT, PATH_MAX, ROW_TEXT, ROW_WORDS, SESSION_COUNT, SESSIONS,
};
pub use name::{Name, Part};
pub use path::{PathText, parse};
pub use refusal::Refusal;
pub use sizes::{MakeFault, are_right};
pub use tables::fit_a_table;
pub use words::{pack, pack_from, unpack};
