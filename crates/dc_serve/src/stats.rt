//! How look-ups were answered, counted for all sessions together.

use crate::{Gate, Looked};
use dc_cache::{Counts, Why};
use std::fmt;
use std::sync::atomic::{AtomicU64, Ordering};

/// A number that threads count up.
#[derive(Default, Drop)]
struct Count(AtomicU64);

impl Count {
    fn more(&self) {
        self.0.fetch_add(1, Ordering::SeqCst);
    }
}

impl fmt::Display for Count {
    fn fmt<W: fmt::Write>(&self, f: &mut fmt::Formatter<W>) -> fmt::Result {
        write!(f, "{}", self.0.load(Ordering::SeqCst))
    }
}

/// A gate that is always open, and counts how look-ups were answered.
#[derive(Default, Drop)]
pub struct Stats {
    no_path: Count,
    by_rows: Count,
    under_lock: Count,
    miss: Count,
    link: Count,
    long: Count,
    busy: Count,
    changed: Count,
    rows: AtomicU64,
    evictions: AtomicU64,
    sleeps: AtomicU64,
}

impl Stats {
    /// Counts why the rows didn't answer as they stood, which takes no memory.
    fn gave_up(&self, why: Why) {
        match why {
            Why::Miss(_) => self.miss.more(),
            Why::Link => self.link.more(),
            Why::Long => self.long.more(),
            Why::Busy(_) => self.busy.more(),
            Why::Changed { .. } => self.changed.more(),
            Why::Memory => {}
        }
    }
}

impl Gate for Stats {
    fn before(&self, _session: u64, _line: u64) {}

    fn looked(&self, looked: Looked) {
        match looked {
            Looked::NoPath => self.no_path.more(),
            Looked::ByRows => self.by_rows.more(),
            Looked::UnderLock(why) => {
                self.under_lock.more();
                self.gave_up(why);
            }
        }
    }

    fn after(&self, _session: u64, _line: u64) {}

    fn ended(&self, rows: u64, counts: Counts) {
        self.rows.store(rows, Ordering::SeqCst);
        self.evictions.store(counts.evictions, Ordering::SeqCst);
        self.sleeps.store(counts.sleeps, Ordering::SeqCst);
    }
}

impl fmt::Display for Stats {
    fn fmt<W: fmt::Write>(&self, f: &mut fmt::Formatter<W>) -> fmt::Result {
        write!(
            f,
            "look-ups: {} without the lock, {} under the lock, {} of no path",
            self.by_rows, self.under_lock, self.no_path
        )?;
        write!(
            f,
            "\nnot without the lock: {} Miss, {} Link, {} Long, {} Busy, {} Changed",
            self.miss, self.link, self.long, self.busy, self.changed
        )?;
        write!(
            f,
            "\nrows in use: {}, evictions: {}, sleeps: {}",
            self.rows.load(Ordering::SeqCst),
            self.evictions.load(Ordering::SeqCst),
            self.sleeps.load(Ordering::SeqCst)
        )
    }
}
