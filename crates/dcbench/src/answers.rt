//! How look-ups were answered.

use crate::causes::{Causes, add};
use std::fmt;

/// How the look-ups of some rows of the table were answered, and what their caches' rows came to.
#[derive(Clone, Copy, Default)]
pub struct Answers {
    /// Look-ups that rows answered as they stood, those that rows answered which were filled for them,
    /// and those under the lock.
    pub without_lock: u64,
    pub by_filled: u64,
    pub under_lock: u64,
    /// Why all but the first weren't answered without the lock.
    pub causes: Causes,
    /// Cache rows in use at the end. Each row of the table has a cache of its own: this is the most of
    /// any.
    pub in_use: u64,
    /// Cache rows that lost their key to another.
    pub evictions: u64,
}

impl Answers {
    /// Takes in those of other rows of the table.
    pub fn take_in(&mut self, other: &Answers) {
        add(&mut self.without_lock, other.without_lock);
        add(&mut self.by_filled, other.by_filled);
        add(&mut self.under_lock, other.under_lock);
        self.causes.take_in(&other.causes);
        self.in_use = self.in_use.max(other.in_use);
        add(&mut self.evictions, other.evictions);
    }
}

impl fmt::Display for Answers {
    fn fmt<W: fmt::Write>(&self, f: &mut fmt::Formatter<W>) -> fmt::Result {
        write!(
            f,
            "look-ups: {} without the lock, {} by filled rows, {} under the lock",
            self.without_lock, self.by_filled, self.under_lock
        )?;
        write!(f, "\n{}", self.causes)?;
        write!(
            f,
            "\nrows in use: {}, evictions: {}",
            self.in_use, self.evictions
        )
    }
}
