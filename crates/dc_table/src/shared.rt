//! The table that threads share.

ghost use Rattle.std.specs.Prelude.{◌≡◌};
ghost use Rattle.dc_events.specs.Rows.{base_of};

use crate::late::Late;
use crate::sheet::Sheet;
use crate::table::{Guarded, Limits, Protocol};
use atomic_table::Table;
use std::alloc::Global;
use std::sync::atomic::AtomicU64;

/// What a table has counted so far. The counts are kept beside the words: nothing rests on them, and no
/// clause speaks of them.
#[derive(Clone, Copy, Debug, PartialEq, Eq)]
pub struct Counts {
    /// How many rows have lost their key to another. Rows that `shrink` emptied aren't among them.
    pub evictions: u64,
    /// How many rows tell of a key at the moment.
    pub rows: u64,
    /// How often a pass has gone to sleep until the lock is free.
    pub sleeps: u64,
}

/// The words that all threads share, and the slot of the lock.
// The slot is an allocation of 16 bytes, and `malloc` may put the `Arc` of this struct right behind it. Each
// hold writes the slot, and a walk reads from `table` where each word lies. On one cache line with the slot
// each hold would take that line from all walks. With three counts between them they are 64 bytes apart.
#[derive(Drop)]
pub struct Shared {
    /// How many passes sleep until the lock is free, and how many are late.
    pub(crate) waiting: AtomicU64,
    /// How many rows have lost their key to another.
    pub(crate) evictions: AtomicU64,
    /// How many rows tell of a key. Whoever has the lock alone writes it.
    pub(crate) rows_in_use: AtomicU64,
    pub(crate) table: Table<Option<Box<Guarded>>, Sheet, Limits, Protocol, Global>,
    pub(crate) limits: Limits,
    /// The passes that are late.
    pub(crate) late: Late,
    /// How often a pass has gone to sleep.
    pub(crate) sleeps: AtomicU64,
    ghost limits_are: { limits ≡ table.shared.key },
    ghost words: { table.shared.table_id.words ≡ base_of limits.rows },
    ghost slots: { table.shared.table_id.slots ≡ 1 },
}
