//! What threads count.

use dc_cache::{Counts, Why};
use dc_plain::{OwnCall, Reply};

/// How many kinds of call there are.
pub const KINDS: usize = 11;

/// The names of the kinds of call, as they are counted.
pub const NAMES: [&str; KINDS] = [
    "look", "stat", "readlink", "list", "mkdir", "create", "link", "symlink", "unlink", "rmdir",
    "rename",
];

/// How often calls were made, and how they were answered.
#[derive(Clone, Copy, Default)]
pub struct Tally {
    /// By kind: the calls, and those of them that were refused.
    pub calls: [u64; KINDS],
    pub refused: [u64; KINDS],
    /// Look-ups that were answered without the lock.
    pub hits: u64,
    /// Look-ups by the rows alone that a change came between.
    pub disturbed: u64,
    /// Tries for the lock that found it taken.
    pub held: u64,
    /// Rows that were emptied by shrinking.
    pub emptied: u64,
    /// Rows that lost their key to another.
    pub evicted: u64,
    /// Threads that went to sleep for the lock.
    pub slept: u64,
    /// Passes that were split off and taken in again.
    pub splits: u64,
    /// Calls that altered the tree.
    pub changes: u64,
    /// Caches.
    pub rounds: u64,
}

/// The place of a call's kind among the names.
fn kind_of(call: &OwnCall) -> usize {
    match call {
        OwnCall::Look { .. } => 0,
        OwnCall::Stat { .. } => 1,
        OwnCall::Readlink { .. } => 2,
        OwnCall::List { .. } => 3,
        OwnCall::Mkdir { .. } => 4,
        OwnCall::Create { .. } => 5,
        OwnCall::Link { .. } => 6,
        OwnCall::Symlink { .. } => 7,
        OwnCall::Unlink { .. } => 8,
        OwnCall::Rmdir { .. } => 9,
        OwnCall::Rename { .. } => 10,
    }
}

/// Adds to a count.
fn add(count: &mut u64, more: u64) {
    *count = count.saturating_add(more);
}

/// Adds to the count at a place.
fn add_at(counts: &mut [u64; KINDS], place: usize, more: u64) {
    if let Some(count) = counts.get_mut(place) {
        add(count, more);
    }
}

/// Adds to all counts.
fn add_all(counts: &mut [u64; KINDS], more: &[u64; KINDS]) {
    for (count, more) in counts.iter_mut().zip(more) {
        add(count, *more);
    }
}

/// The sum of some counts.
pub fn sum(counts: &[u64; KINDS]) -> u64 {
    counts
        .iter()
        .fold(0, |sum: u64, count| sum.saturating_add(*count))
}

impl Tally {
    /// Counts a call and its answer.
    pub fn count(&mut self, call: &OwnCall, reply: &Reply) {
        let kind = kind_of(call);
        add_at(&mut self.calls, kind, 1);
        if let Reply::Refused(_) = reply {
            add_at(&mut self.refused, kind, 1);
        }
    }

    /// Counts why the rows alone gave no answer.
    pub fn count_cause(&mut self, why: &Why) {
        if let Why::Busy(_) | Why::Changed { .. } = why {
            add(&mut self.disturbed, 1);
        }
    }

    pub fn count_hit(&mut self) {
        add(&mut self.hits, 1);
    }

    pub fn count_held(&mut self) {
        add(&mut self.held, 1);
    }

    pub fn count_split(&mut self) {
        add(&mut self.splits, 1);
    }

    pub fn count_emptied(&mut self, rows: u64) {
        add(&mut self.emptied, rows);
    }

    /// Counts a cache: what it counted itself, and the calls that altered its tree.
    pub fn count_cache(&mut self, counts: &Counts, changes: u64) {
        self.evicted = counts.evictions;
        self.slept = counts.sleeps;
        self.rounds = 1;
        self.changes = changes;
    }

    /// Takes in what another thread counted, or another cache.
    pub fn take_in(&mut self, other: &Tally) {
        add_all(&mut self.calls, &other.calls);
        add_all(&mut self.refused, &other.refused);
        add(&mut self.hits, other.hits);
        add(&mut self.disturbed, other.disturbed);
        add(&mut self.held, other.held);
        add(&mut self.emptied, other.emptied);
        add(&mut self.evicted, other.evicted);
        add(&mut self.slept, other.slept);
        add(&mut self.splits, other.splits);
        add(&mut self.changes, other.changes);
        add(&mut self.rounds, other.rounds);
    }
}
