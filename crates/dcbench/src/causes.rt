//! Why look-ups were not answered without the lock.

use dc_cache::Why;
use std::fmt;

/// How often the rows didn't answer as they stood, by the cause.
#[derive(Clone, Copy, Default)]
pub struct Causes {
    /// No row had a name, or a link's text.
    pub miss: u64,
    pub link: u64,
    /// A walk would rest on too many rows.
    pub long: u64,
    /// A change came between.
    pub busy: u64,
    pub changed: u64,
}

/// Counts this many more.
pub fn add(count: &mut u64, more: u64) {
    *count = count.saturating_add(more);
}

impl Causes {
    /// Counts a cause. The rows as they stand take no memory, and so never want it.
    pub fn count(&mut self, why: &Why) {
        match why {
            Why::Miss(_) => add(&mut self.miss, 1),
            Why::Link => add(&mut self.link, 1),
            Why::Long => add(&mut self.long, 1),
            Why::Busy(_) => add(&mut self.busy, 1),
            Why::Changed { .. } => add(&mut self.changed, 1),
            Why::Memory => {}
        }
    }

    /// Takes in what was counted elsewhere.
    pub fn take_in(&mut self, other: &Causes) {
        add(&mut self.miss, other.miss);
        add(&mut self.link, other.link);
        add(&mut self.long, other.long);
        add(&mut self.busy, other.busy);
        add(&mut self.changed, other.changed);
    }

    /// How often no change was the cause.
    pub fn gone(&self) -> u64 {
        self.miss
            .saturating_add(self.link)
            .saturating_add(self.long)
    }

    /// How often there was a cause.
    fn all(&self) -> u64 {
        self.gone()
            .saturating_add(self.busy)
            .saturating_add(self.changed)
    }
}

impl fmt::Display for Causes {
    fn fmt<W: fmt::Write>(&self, f: &mut fmt::Formatter<W>) -> fmt::Result {
        write!(
            f,
            "look-ups not without the lock: {}, by {} Miss, {} Link, {} Long, {} Busy, {} Changed",
            self.all(),
            self.miss,
            self.link,
            self.long,
            self.busy,
            self.changed
        )
    }
}
