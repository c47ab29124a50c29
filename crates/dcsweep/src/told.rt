//! The four ends of a trial, and the words for them.

use std::fmt;

/// What came of a trial.
#[derive(Clone, Copy)]
pub enum Told {
    /// The refused allocation is the one with this number behind the call, counted from 1.
    After(u64),
    /// It was within the call, which answered all the same.
    Answered,
    /// It was within the call, which answered out of memory.
    Refused,
    /// Something isn't as it should be.
    Wrong(&'static str),
}

impl fmt::Display for Told {
    fn fmt<W: fmt::Write>(&self, f: &mut fmt::Formatter<W>) -> fmt::Result {
        match self {
            Told::After(place) => write!(f, "after {place}"),
            Told::Answered => f.write_str("answered"),
            Told::Refused => f.write_str("refused"),
            Told::Wrong(what) => write!(f, "wrong: {what}"),
        }
    }
}
