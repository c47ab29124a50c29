//! Walks over the shared table: `walk_fast` takes no lock and no memory, and never waits; `walk_counted`
//! fills and pins the rows that it needs, each under the lock; `walk_locked` asks the tree itself. The
//! first two are one walk over two sources of rows, so what one of them reads and checks the other does.
//! `walk_briefly` is the first without the reason why it gives up. The walk's small functions are
//! inlined, each for one reason, which was measured: a call of it hands the words of a row, or what
//! stands for a key, through memory. The compiler drops the mark if a function grows too long by it: then
//! `nm` shows a `find_hashed` that is a `Walker`'s.
#![tactic(auto)]

mod along;
mod answer;
mod bucket;
mod counted;
mod filter;
mod finder;
mod link;
mod locked;
mod look;
mod pinned;
mod placing;
mod probe;
mod question;
mod row;
mod rows;
mod settle;
mod sought;
mod source;
mod unlocked;
mod used;
mod walk;
mod why;

pub use along::{FastAlong, walk_fast_along};
pub use answer::Fast;
pub use counted::walk_counted;
pub use dc_names::{MOST_LOADS, MOST_USED};
use dc_names::{MOST_USED_BYTES, ROW_WORDS};
pub use locked::walk_locked;
pub use look::Look;
pub use placing::{are_as_noted, change_by_rows, find_front, still_known};
pub use question::key_of;
pub use unlocked::{walk_briefly, walk_fast};
pub use used::Room;
pub use why::Why;

/// How many words a walk's room has: for each row the four before its text and one that the text may end
/// in, those that are full of texts, and those of a whole row that is being read.
pub(crate) const ROOM_WORDS: usize = 5 * MOST_USED + MOST_USED_BYTES / 8 + ROW_WORDS;
