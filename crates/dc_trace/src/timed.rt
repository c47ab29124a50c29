//! Calls with their times, and why a text has none.

use dc_lang::{Command, LineFault};
use dc_names::NoMemory;
use dc_plain::Reply;
use std::alloc::{AllocError, AllocFailed};
use std::error::Error;
use std::fmt;

/// A call that began and ended at these times of one clock.
#[derive(Drop)]
pub struct Timed {
    /// Its line, counted from 1.
    pub line: u64,
    /// When it began.
    pub start: u64,
    /// When it had ended.
    pub end: u64,
    /// What was called.
    pub command: Command,
    /// What it was answered.
    pub reply: Reply,
}

/// Why a text is no trace.
#[derive(Clone, Copy, Debug)]
pub enum TraceFault {
    /// This line is none of the grammar, ends before it begins, or begins before its session's call
    /// before it has ended.
    BadLine(u64),
    /// Memory was refused.
    NoMemory,
}

impl fmt::Display for TraceFault {
    fn fmt<W: fmt::Write>(&self, f: &mut fmt::Formatter<W>) -> fmt::Result {
        match self {
            TraceFault::BadLine(line) => write!(f, "bad line {line}"),
            TraceFault::NoMemory => f.write_str("no memory"),
        }
    }
}

impl Error for TraceFault {}

impl TraceFault {
    /// The fault of a line.
    pub fn of(fault: LineFault, line: u64) -> TraceFault {
        match fault {
            LineFault::Bad => TraceFault::BadLine(line),
            LineFault::NoMemory => TraceFault::NoMemory,
        }
    }
}

impl From<NoMemory> for TraceFault {
    fn from(_fault: NoMemory) -> TraceFault {
        TraceFault::NoMemory
    }
}

impl From<AllocError> for TraceFault {
    fn from(_fault: AllocError) -> TraceFault {
        TraceFault::NoMemory
    }
}

impl<T: Drop> From<AllocFailed<T>> for TraceFault {
    fn from(_fault: AllocFailed<T>) -> TraceFault {
        TraceFault::NoMemory
    }
}
