//! The rows of the tables, as text and as JSON.

use crate::answers::Answers;
use crate::causes::Causes;
use crate::tally::Tally;
use crate::work::{Shape, Sort, Work};
use serde_json::{Map, Value, put};
use std::alloc::{AllocError, Global};
use std::fmt;

/// A row of a table.
pub trait Row: fmt::Display {
    /// The row as an object of JSON. Times are in picoseconds.
    fn json(&self, alloc: Global) -> Result<String, AllocError>;
}

/// An object of JSON that is being filled.
#[derive(Drop)]
pub struct Members {
    alloc: Global,
    map: Map<String, Value>,
}

impl Members {
    /// An object with the name of a command.
    pub fn of(alloc: Global, command: &str) -> Result<Members, AllocError> {
        let mut members = Members {
            alloc,
            map: Map::new(alloc),
        };
        members.text("command", command)?;
        Ok(members)
    }

    /// Adds a text.
    pub fn text(&mut self, name: &str, text: &str) -> Result<(), AllocError> {
        let value = Value::try_from_str(self.alloc, text)?;
        put(&mut self.map, self.alloc, name, value)?;
        Ok(())
    }

    /// Adds numbers by their names.
    pub fn numbers(&mut self, numbers: &[(&str, u64)]) -> Result<(), AllocError> {
        for member in numbers {
            let (name, number) = *member;
            put(&mut self.map, self.alloc, name, Value::from(number))?;
        }
        Ok(())
    }

    /// Adds the times of a call.
    pub fn times(&mut self, tally: &Tally) -> Result<(), AllocError> {
        self.numbers(&[
            ("median_ps", tally.quantile(50)),
            ("p99_ps", tally.quantile(99)),
            ("least_ps", tally.quantile(0)),
        ])
    }

    /// Adds how look-ups were answered.
    fn ways(&mut self, tally: &Tally) -> Result<(), AllocError> {
        self.numbers(&[
            ("without_lock", tally.by_fast()),
            ("by_filled_rows", tally.by_rows),
            ("under_lock", tally.by_lock),
            ("untold", tally.untold),
        ])
    }

    /// Adds why look-ups were not answered without the lock.
    fn causes(&mut self, causes: &Causes) -> Result<(), AllocError> {
        self.numbers(&[
            ("miss", causes.miss),
            ("link", causes.link),
            ("long", causes.long),
            ("busy", causes.busy),
            ("changed", causes.changed),
        ])
    }

    /// The object as a line.
    pub fn line(self) -> Result<String, AllocError> {
        let Members { alloc, map } = self;
        Value::Object(map).to_string(alloc)
    }
}

/// A number of picoseconds, shown in nanoseconds with one digit behind the point.
#[derive(Clone, Copy)]
struct Nanoseconds(u64);

impl fmt::Display for Nanoseconds {
    fn fmt<W: fmt::Write>(&self, f: &mut fmt::Formatter<W>) -> fmt::Result {
        let tenths = self.0 / 100;
        let (whole, tenth) = (tenths / 10, tenths % 10);
        write!(f, "{whole:>7}.{tenth}")
    }
}

/// A number of picoseconds, shown in milliseconds with three digits behind the point.
#[derive(Clone, Copy)]
struct Milliseconds(u64);

impl fmt::Display for Milliseconds {
    fn fmt<W: fmt::Write>(&self, f: &mut fmt::Formatter<W>) -> fmt::Result {
        let micros = self.0 / 1_000_000;
        let (whole, rest) = (micros / 1_000, micros % 1_000);
        write!(f, "{whole:>5}.{rest:03}")
    }
}

/// Writes numbers, each behind a space and at the right of this many places.
pub fn write_cells<W: fmt::Write>(
    f: &mut fmt::Formatter<W>,
    cells: &[(usize, u64)],
) -> fmt::Result {
    for cell in cells {
        let (width, number) = *cell;
        write!(f, " {number:>width$}")?;
    }
    Ok(())
}

/// Writes the times of a call.
fn write_times<W: fmt::Write>(f: &mut fmt::Formatter<W>, tally: &Tally) -> fmt::Result {
    let (median, most) = (tally.quantile(50), tally.quantile(99));
    write!(f, "   {} {}", Nanoseconds(median), Nanoseconds(most))?;
    write_cells(f, &[(13, tally.rate)])
}

/// Writes how look-ups were answered, and how often a row was missing.
fn write_ways<W: fmt::Write>(f: &mut fmt::Formatter<W>, tally: &Tally) -> fmt::Result {
    write_cells(
        f,
        &[
            (13, tally.by_fast()),
            (13, tally.by_rows),
            (7, tally.by_lock),
            (11, tally.causes.gone()),
        ],
    )
}

/// A row of a run of look-ups.
#[derive(Drop)]
pub struct LookRow {
    pub shape: Shape,
    pub threads: u64,
    pub tally: Tally,
    /// How many rows lost their key to another.
    pub evicted: u64,
    /// How many rows are filled at the end.
    pub filled: u64,
}

impl LookRow {
    /// How the row's look-ups were answered.
    pub fn answers(&self) -> Answers {
        let tally = &self.tally;
        Answers {
            without_lock: tally.by_fast(),
            by_filled: tally.by_rows,
            under_lock: tally.by_lock,
            causes: tally.causes,
            in_use: self.filled,
            evictions: self.evicted,
        }
    }

    /// Adds what was run.
    fn add_sizes(&self, members: &mut Members) -> Result<(), AllocError> {
        members.text("work", self.shape.work.name())?;
        members.numbers(&[
            ("depth", self.shape.depth),
            ("hot", self.shape.hot),
            ("buckets", self.shape.buckets),
            ("threads", self.threads),
        ])
    }

    /// Adds what was counted and timed.
    fn add_counts(&self, members: &mut Members) -> Result<(), AllocError> {
        let tally = &self.tally;
        members.times(tally)?;
        members.numbers(&[
            ("calls_a_second", tally.rate),
            ("looks", tally.looks),
            ("changes", tally.changes),
            ("found", tally.found),
        ])?;
        members.ways(tally)?;
        members.causes(&tally.causes)?;
        members.numbers(&[
            ("rows_evicted", self.evicted),
            ("rows_in_use", self.filled),
            ("changes_refused", tally.wrong),
        ])
    }
}

/// What stands above the rows of look-ups.
pub const LOOK_HEAD: &str = "\
work   names threads   median ns      99th     calls a s  without lock   filled rows    lock   rows gone     evicted  rows in use";

impl fmt::Display for LookRow {
    fn fmt<W: fmt::Write>(&self, f: &mut fmt::Formatter<W>) -> fmt::Result {
        write!(f, "{:<6}", self.shape.work.name())?;
        write_cells(f, &[(5, self.shape.depth), (7, self.threads)])?;
        write_times(f, &self.tally)?;
        write_ways(f, &self.tally)?;
        write_cells(f, &[(11, self.evicted), (12, self.filled)])
    }
}

impl Row for LookRow {
    fn json(&self, alloc: Global) -> Result<String, AllocError> {
        let mut members = Members::of(alloc, "look")?;
        self.add_sizes(&mut members)?;
        self.add_counts(&mut members)?;
        members.line()
    }
}

/// A row of a run of changes.
#[derive(Drop)]
pub struct ChangeRow {
    pub threads: u64,
    pub tally: Tally,
}

/// What stands above the rows of changes.
pub const CHANGE_HEAD: &str = "change threads   median ns      99th   changes a s";

impl fmt::Display for ChangeRow {
    fn fmt<W: fmt::Write>(&self, f: &mut fmt::Formatter<W>) -> fmt::Result {
        write!(f, "       {:>7}", self.threads)?;
        write_times(f, &self.tally)
    }
}

impl Row for ChangeRow {
    fn json(&self, alloc: Global) -> Result<String, AllocError> {
        let tally = &self.tally;
        let mut members = Members::of(alloc, "change")?;
        members.numbers(&[("threads", self.threads)])?;
        members.times(tally)?;
        members.numbers(&[
            ("changes_a_second", tally.rate),
            ("changes", tally.changes),
            ("changes_refused", tally.wrong),
        ])?;
        members.line()
    }
}

/// A row of waits: those of one kind of call.
#[derive(Drop)]
pub struct WaitRow {
    /// `change` or `miss`.
    pub call: &'static str,
    /// How many threads hold the lock.
    pub hogs: u64,
    /// How many names they list, and how many picoseconds a list takes alone.
    pub names: u64,
    pub hold: u64,
    pub tally: Tally,
}

/// What stands above the rows of waits.
pub const WAIT_HEAD: &str = "waits   hogs   hold ms median ms      99th   longest  holds";

impl fmt::Display for WaitRow {
    fn fmt<W: fmt::Write>(&self, f: &mut fmt::Formatter<W>) -> fmt::Result {
        let tally = &self.tally;
        write!(f, "{:<6}", self.call)?;
        write_cells(f, &[(5, self.hogs)])?;
        write!(f, " {}", Milliseconds(self.hold))?;
        for hundredths in [50, 99, 100] {
            write!(f, " {}", Milliseconds(tally.quantile(hundredths)))?;
        }
        write_cells(f, &[(6, tally.passed)])
    }
}

impl Row for WaitRow {
    fn json(&self, alloc: Global) -> Result<String, AllocError> {
        let tally = &self.tally;
        let mut members = Members::of(alloc, "waits")?;
        members.text("call", self.call)?;
        members.numbers(&[
            ("hogs", self.hogs),
            ("names", self.names),
            ("hold_ps", self.hold),
        ])?;
        members.times(tally)?;
        members.numbers(&[
            ("longest_ps", tally.quantile(100)),
            ("holds", tally.passed),
            ("calls", tally.calls()),
            ("changes_refused", tally.wrong),
        ])?;
        members.line()
    }
}

/// A row of a race.
#[derive(Drop)]
pub struct RaceRow {
    pub sort: Sort,
    pub depth: u64,
    pub milliseconds: u64,
    pub tally: Tally,
}

impl RaceRow {
    /// Adds what was counted.
    fn add_counts(&self, members: &mut Members) -> Result<(), AllocError> {
        let tally = &self.tally;
        members.numbers(&[
            ("depth", self.depth),
            ("looks", tally.looks),
            ("wrong", tally.wrong),
        ])?;
        members.ways(tally)?;
        members.causes(&tally.causes)?;
        members.numbers(&[
            ("changes", tally.changes),
            ("milliseconds", self.milliseconds),
        ])
    }
}

/// What stands above the rows of races.
pub const RACE_HEAD: &str =
    "race     between     look-ups   wrong  without lock     changes      ms";

impl fmt::Display for RaceRow {
    fn fmt<W: fmt::Write>(&self, f: &mut fmt::Formatter<W>) -> fmt::Result {
        let tally = &self.tally;
        write!(f, "{:<8}", self.sort.name())?;
        write_cells(
            f,
            &[
                (7, self.depth),
                (12, tally.looks),
                (7, tally.wrong),
                (13, tally.by_fast()),
                (11, tally.changes),
                (7, self.milliseconds),
            ],
        )
    }
}

impl Row for RaceRow {
    fn json(&self, alloc: Global) -> Result<String, AllocError> {
        let mut members = Members::of(alloc, "race")?;
        members.text("race", self.sort.name())?;
        self.add_counts(&mut members)?;
        members.line()
    }
}
