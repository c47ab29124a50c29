//! The cache, the pass that a thread calls it with, and what is left of it after `close`.

use dc_store::SlabStore;
use dc_table::{Nobody, Pass as Seat, Shared, Sleepers};
use dc_walk::Room;
use std::error::Error;
use std::fmt;
use std::marker::PhantomData;

/// A cache of directory entries in front of an inode store in memory. Threads share it by `&`, each with a
/// pass of its own. `W` says whether a thread may sleep until the cache's lock is free: `Sleepers` has the
/// calls that wait for the lock, and each of its calls that had the lock wakes a thread that waits for it;
/// `Nobody` has only the calls that never wait, and they wake nobody.
#[derive(Drop)]
pub struct Cache<W> {
    pub(crate) shared: Shared,
    pub(crate) wakes: PhantomData<W>,
}

/// A cache with all calls: those that never wait, and those that wait for the lock.
pub type Dcache = Cache<Sleepers>;

/// A cache without the calls that wait. It needs no runtime that can put a thread to sleep or wake one, so
/// that it serves callers that have none, as a program in C.
pub type Sleepless = Cache<Nobody>;

/// What a thread calls the cache with: for the proof alone, what it has done and seen; and room for the
/// rows that a look-up uses. It serves the cache that it comes from, and no other.
#[derive(Drop)]
pub struct Pass {
    pub(crate) seat: Seat,
    pub(crate) room: Room,
}

/// What is left of a cache that was closed.
#[derive(Drop)]
pub struct Ended {
    /// The tree, which answers through the trait `Store`.
    pub store: SlabStore,
    /// How many calls have altered it.
    pub clock: u64,
}

/// A point that hasn't come yet: only this many calls have altered the tree so far.
#[derive(Clone, Copy, Debug, PartialEq, Eq)]
pub struct NotYet(pub u64);

impl fmt::Display for NotYet {
    fn fmt<W: fmt::Write>(&self, f: &mut fmt::Formatter<W>) -> fmt::Result {
        write!(f, "the tree was altered {} times so far", self.0)
    }
}

impl Error for NotYet {}
