//! What threads count and time.

use crate::causes::Causes;
use std::alloc::Global;
use std::time::Duration;

/// The most turns of a thread whose times are kept.
const MOST_TURNS: usize = 1_000_000;

/// The turns that there is room for before the first is timed.
const FIRST_TURNS: usize = 65_536;

/// How often calls were answered in which way, and how long turns of them took.
#[derive(Drop)]
pub struct Tally {
    /// Look-ups, and changes.
    pub looks: u64,
    pub changes: u64,
    /// Look-ups that found something.
    pub found: u64,
    /// Look-ups with another answer than the one that is right.
    pub wrong: u64,
    /// Why the rows didn't answer look-ups as they stood.
    pub causes: Causes,
    /// Look-ups that were answered by rows that were filled for them, and those that weren't.
    pub by_rows: u64,
    pub by_lock: u64,
    /// Look-ups by a call that doesn't tell how it was answered.
    pub untold: u64,
    /// The most holds of the lock by others that ended within one call.
    pub passed: u64,
    /// Calls a second, of all threads.
    pub rate: u64,
    /// Picoseconds of a call, by turn.
    pub turns: Vec<u64>,
    /// Picoseconds of each call that found the lock taken, of those that tell so.
    pub waits: Vec<u64>,
}

/// The picoseconds of a time, shared out over some calls.
fn picoseconds(time: Duration, calls: u64) -> u64 {
    nanoseconds(time)
        .saturating_mul(1000)
        .checked_div(calls)
        .unwrap_or(0)
}

/// The nanoseconds of a time.
pub fn nanoseconds(time: Duration) -> u64 {
    time.as_secs()
        .saturating_mul(1_000_000_000)
        .saturating_add(u64::from(time.subsec_nanos()))
}

/// How many a second this many in some time are.
pub fn a_second(calls: u64, time: Duration) -> u64 {
    calls
        .saturating_mul(1_000_000)
        .checked_div(nanoseconds(time) / 1000)
        .unwrap_or(0)
}

/// The time that this many in a hundred of some sorted times don't exceed.
fn quantile_of(times: &[u64], hundredths: usize) -> u64 {
    let at = times.len().saturating_mul(hundredths) / 100;
    let last = times.len().saturating_sub(1);
    times.get(at.min(last)).copied().unwrap_or(0)
}

impl Tally {
    pub fn new(alloc: Global) -> Tally {
        Tally {
            looks: 0,
            changes: 0,
            found: 0,
            wrong: 0,
            causes: Causes::default(),
            by_rows: 0,
            by_lock: 0,
            untold: 0,
            passed: 0,
            rate: 0,
            turns: Vec::with_capacity(alloc, FIRST_TURNS).unwrap_or(Vec::new(alloc)),
            waits: Vec::new(alloc),
        }
    }

    pub fn calls(&self) -> u64 {
        self.looks.saturating_add(self.changes)
    }

    /// Look-ups that were answered without the lock.
    pub fn by_fast(&self) -> u64 {
        self.looks
            .saturating_sub(self.by_rows)
            .saturating_sub(self.by_lock)
            .saturating_sub(self.untold)
    }

    /// Keeps the time of a turn of this many calls, as far as there is memory for it.
    pub fn turn(&mut self, took: Duration, calls: u64) {
        if self.turns.len() < MOST_TURNS {
            let _ = self.turns.push(picoseconds(took, calls));
        }
    }

    /// Keeps the time of a call that found the lock taken, as far as there is memory for it.
    pub fn wait(&mut self, took: Duration) {
        if self.waits.len() < MOST_TURNS {
            let _ = self.waits.push(picoseconds(took, 1));
        }
    }

    /// Takes in what another thread counted and timed.
    pub fn take_in(&mut self, other: Tally) {
        self.looks = self.looks.saturating_add(other.looks);
        self.changes = self.changes.saturating_add(other.changes);
        self.found = self.found.saturating_add(other.found);
        self.wrong = self.wrong.saturating_add(other.wrong);
        self.causes.take_in(&other.causes);
        self.by_rows = self.by_rows.saturating_add(other.by_rows);
        self.by_lock = self.by_lock.saturating_add(other.by_lock);
        self.untold = self.untold.saturating_add(other.untold);
        self.passed = self.passed.max(other.passed);
        self.rate = self.rate.saturating_add(other.rate);
        let _ = self.turns.extend_from_slice(&other.turns);
        let _ = self.waits.extend_from_slice(&other.waits);
    }

    /// Sorts the times, so that `quantile` and `waited` can be read.
    pub fn sort(&mut self) {
        self.turns.sort_unstable();
        self.waits.sort_unstable();
    }

    /// The time that this many in a hundred turns don't exceed, once the turns are sorted.
    pub fn quantile(&self, hundredths: usize) -> u64 {
        quantile_of(&self.turns, hundredths)
    }

    /// The same of the calls that found the lock taken.
    pub fn waited(&self, hundredths: usize) -> u64 {
        quantile_of(&self.waits, hundredths)
    }
}
