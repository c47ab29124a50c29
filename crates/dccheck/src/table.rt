//! The table of a soak: a row for each number of buckets, and the calls by kind.

use dc_soak::{BUCKETS, NAMES, SORTS, Tally, sum};
use std::fmt;

/// What stands above the rows.
const HEAD: &str = "\
buckets  caches       calls     refused     changes    look-ups  without lock   disturbed  lock taken       slept  rows emptied     evicted    splits";

/// What was counted, by the place of the number of buckets.
#[derive(Clone, Copy, Default)]
pub struct Report {
    rows: [Tally; SORTS],
}

impl Report {
    /// Takes in a round.
    pub fn take_in(&mut self, place: usize, tally: &Tally) {
        if let Some(row) = self.rows.get_mut(place) {
            row.take_in(tally);
        }
    }

    /// All rows together.
    pub fn whole(&self) -> Tally {
        let mut whole = Tally::default();
        for row in &self.rows {
            whole.take_in(row);
        }
        whole
    }
}

/// Writes a row without its first word.
fn write_row<W: fmt::Write>(f: &mut fmt::Formatter<W>, row: &Tally) -> fmt::Result {
    let (calls, refused) = (sum(&row.calls), sum(&row.refused));
    let [looks, ..] = row.calls;
    write!(
        f,
        " {:>7} {calls:>11} {refused:>11} {:>11}",
        row.rounds, row.changes
    )?;
    write!(f, " {looks:>11} {:>13} {:>11}", row.hits, row.disturbed)?;
    write!(f, " {:>11} {:>11}", row.held, row.slept)?;
    writeln!(
        f,
        " {:>13} {:>11} {:>9}",
        row.emptied, row.evicted, row.splits
    )
}

/// Writes how many calls of each kind there were, and how many of them were refused.
fn write_kinds<W: fmt::Write>(f: &mut fmt::Formatter<W>, whole: &Tally) -> fmt::Result {
    for (at, name) in NAMES.iter().enumerate() {
        let made = whole.calls.get(at).copied().unwrap_or(0);
        let refused = whole.refused.get(at).copied().unwrap_or(0);
        writeln!(f, "{name:<8} {made:>11} calls {refused:>11} refused")?;
    }
    Ok(())
}

impl fmt::Display for Report {
    fn fmt<W: fmt::Write>(&self, f: &mut fmt::Formatter<W>) -> fmt::Result {
        writeln!(f, "{HEAD}")?;
        for (buckets, row) in BUCKETS.iter().zip(&self.rows) {
            write!(f, "{buckets:>7}")?;
            write_row(f, row)?;
        }
        let whole = self.whole();
        f.write_str("    all")?;
        write_row(f, &whole)?;
        write_kinds(f, &whole)
    }
}
