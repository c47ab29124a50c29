//! The table that threads share: its words, its lock, and the steps on them.
//!
//! # What the words hold, and who writes them when
//!
//! Word 0 is the clock: how many calls have altered the tree. The holder of the lock alone raises it, by
//! one, at the commit of a change. Any pass may load it; a look-up without the lock takes effect at such a
//! load, its pivot.
//!
//! Word 1 is the lock: 1 while a pass has it, else 0. A pass gets it by one compare-exchange from 0 to 1,
//! and its holder alone writes 0.
//!
//! Row r has the `ROW_WORDS` words from 2 + r * `ROW_WORDS` on. The first is its sequence count: even while
//! the row stands, odd while its other words are written. The others spell a fact (a name in a directory
//! and where it leads, if anywhere; a dot-dot; the text of a link) or nothing. The holder of the lock
//! alone writes a row, and each row in the same order: it shuts the row (the count becomes odd), writes
//! its words, and opens it (the count becomes even, and higher than it ever was). An even row is true of
//! the tree as it is now. So a change shuts the rows of all keys that it touches before its commit, and
//! opens them when they tell of the new tree. A count never comes again: a row whose count ends, at 2^62,
//! is empty and retired.
//!
//! The slot holds what the lock guards while it is free: the tree, which row has which key, which rows are
//! in use, and the clock once more. It is empty while the lock is held, and then the holder has what lay
//! in it.
//!
//! # Who may read
//!
//! Any pass may load any word at any time. What was read of a row counts only if its count is even before
//! the first of its words is read and the same after the pivot; all rows of a walk for which this is so
//! were true together at the pivot.
//!
//! # Memory order
//!
//! Each step on a word is sequentially consistent, as each step of the kit's `atomic_table` is. The slot is
//! plain memory: the word of the lock orders who reads and writes it.
//!
//! # Who may take which step
//!
//! `Holder` has the steps of the one that has the lock, `Reader` those of a walk without it, and both take
//! them for a `Pass`. `Shared` makes them: `lock` and `try_lock` the one, `reader` the other. Else it has
//! its beginning and its end, its sizes and counts, how passes are cut and put together, and `learn`, which
//! loads the clock.
//!
//! Each step that frees the lock takes a `Wakes`, which says whether threads sleep until it is free: it is
//! `Sleepers` for a table on which any thread calls `lock`, else `Nobody`. `lock` takes a `Waits`, and of the
//! two `Sleepers` alone is one. Both go through the acts of a machine (`acts`). A pass that is passed over
//! in `lock` is let first, but no clause says that it ever gets the lock.
#![tactic(auto)]

mod acts;
mod holder;
mod late;
mod passing;
mod plays;
mod shared;
mod sheet;
mod steps;
mod table;
mod walking;

pub use acts::Turn;
pub use acts::waits::Waits;
pub use acts::wakes::{Nobody, Sleepers, Wakes};
pub use dc_names::{MOST_COUNT, MakeFault};
pub use holder::{Holder, Reader};
pub use shared::{Counts, Shared};
pub use sheet::Sheet;
pub use table::{Guarded, Limits, Pass, Protocol};

/// The word that counts the changes.
pub(crate) const CLOCK: usize = 0;

/// The word that is `TAKEN` while a pass has the lock, else `FREE`.
pub(crate) const LOCK: usize = 1;

/// The lock is free.
pub(crate) const FREE: u64 = 0;

/// A pass has the lock.
pub(crate) const TAKEN: u64 = 1;

/// How often a pass looks at the lock's word before it tries, if it finds the lock taken.
pub(crate) const FEW_LOOKS: u64 = 16;

/// How many pauses of the processor come after each of these looks. All of them take some microseconds.
pub(crate) const SHORT_PAUSES: u64 = 16;

/// How often a pass that found the lock taken looks at its word before it sleeps for the first time.
pub(crate) const MOST_LOOKS: u64 = 20;

/// How many pauses of the processor come after the first of its looks. Each is some 5 to 60 nanoseconds.
pub(crate) const FEWEST_PAUSES: u64 = 64;

/// How often that number doubles.
pub(crate) const MOST_DOUBLINGS: u64 = 5;

/// After how many milliseconds a sleeper tries again, if nobody wakes it.
pub(crate) const NAP: u64 = 2;

/// How often a pass has slept in vain when it is late.
pub(crate) const PATIENCE: u64 = 2;

/// How often a pass has slept in vain when it waits for no late pass any longer.
pub(crate) const MOST_SLEEPS: u64 = 64;

/// The first word of the rows.
pub(crate) const FIRST_ROW: usize = 2;
