//! The rows of the table of holds, as text and as JSON.

use crate::report::{Members, Row, write_cells};
use crate::tally::Tally;
use crate::work::Taker;
use std::alloc::{AllocError, Global};
use std::fmt;

/// A row of holds: those of one kind of call by some threads.
#[derive(Drop)]
pub struct HoldRow {
    pub taker: Taker,
    pub threads: u64,
    pub tally: Tally,
}

/// What stands above the rows of holds.
pub const HOLD_HEAD: &str = "\
holds   threads    held us      99th    longest  taken in 100   waited us      99th    longest     calls a s";

/// A number of picoseconds, shown in microseconds with three digits behind the point.
#[derive(Clone, Copy)]
struct Microseconds(u64);

impl fmt::Display for Microseconds {
    fn fmt<W: fmt::Write>(&self, f: &mut fmt::Formatter<W>) -> fmt::Result {
        let nanos = self.0 / 1_000;
        let (whole, rest) = (nanos / 1_000, nanos % 1_000);
        write!(f, "{whole:>6}.{rest:03}")
    }
}

impl HoldRow {
    /// How many in a hundred of the calls that were timed found the lock taken.
    fn taken(&self) -> u64 {
        let waits = self.tally.waits.len() as u64;
        let all = waits.saturating_add(self.tally.turns.len() as u64);
        waits.saturating_mul(100).checked_div(all).unwrap_or(0)
    }

    /// Adds how long calls waited.
    fn add_waits(&self, members: &mut Members) -> Result<(), AllocError> {
        let tally = &self.tally;
        members.numbers(&[
            ("longest_ps", tally.quantile(100)),
            ("waits", tally.waits.len() as u64),
            ("wait_median_ps", tally.waited(50)),
            ("wait_p99_ps", tally.waited(99)),
            ("wait_longest_ps", tally.waited(100)),
        ])
    }
}

impl fmt::Display for HoldRow {
    fn fmt<W: fmt::Write>(&self, f: &mut fmt::Formatter<W>) -> fmt::Result {
        let tally = &self.tally;
        write!(f, "{:<7}", self.taker.name())?;
        write_cells(f, &[(7, self.threads)])?;
        for hundredths in [50, 99, 100] {
            write!(f, " {}", Microseconds(tally.quantile(hundredths)))?;
        }
        write_cells(f, &[(13, self.taken())])?;
        write!(f, " ")?;
        for hundredths in [50, 99, 100] {
            write!(f, " {}", Microseconds(tally.waited(hundredths)))?;
        }
        write_cells(f, &[(13, tally.rate)])
    }
}

impl Row for HoldRow {
    fn json(&self, alloc: Global) -> Result<String, AllocError> {
        let tally = &self.tally;
        let mut members = Members::of(alloc, "holds")?;
        members.text("call", self.taker.name())?;
        members.numbers(&[("threads", self.threads)])?;
        members.times(tally)?;
        self.add_waits(&mut members)?;
        members.numbers(&[
            ("calls", tally.calls()),
            ("calls_a_second", tally.rate),
            ("changes_refused", tally.wrong),
        ])?;
        members.line()
    }
}
