//! What a program in C has of a cache: one thread's hold on it, and the answers of its calls in numbers.
//!
//! A `Hold` is a pass with its cache, so that no pass can be given to another cache. No call of it waits:
//! it is of a `Sleepless` cache. `told` has what an answer of the cache says to C, and `status` the one
//! place where the end of a call becomes a number.
#![tactic(auto)]

mod along;
mod asked;
mod buffer;
mod hold;
mod pages;
mod status;
mod told;
mod whereabouts;

pub use along::{told_along, told_fast_along};
pub use asked::{flags_of, follow_of};
pub use buffer::{put_names, put_text};
pub use hold::Hold;
pub use pages::{DirEntry, NAME_ROOM, asked_page, told_page};
pub use status::Status;
pub use told::{
    Found, Gone, Told, told_change, told_fast, told_gone, told_link, told_read, told_tried,
};
pub use whereabouts::{put_path, told_where};
