//! Why the program ends without its table.

use clap::error::ErrorKind;
use dc_cache::{ChangeFault, MakeFault};
use dc_names::MOST_TABLE_BUCKETS;
use std::alloc::{AllocError, AllocFailed};
use std::io;

/// What ends the program early.
#[derive(Drop)]
pub enum Fault {
    /// The words aren't those of the command line, or ask for help.
    Words(clap::Error),
    /// A word is no text.
    NoText,
    /// The buckets are no power of two from 1 to `MOST_TABLE_BUCKETS`.
    BadSize,
    /// The file of the tree can't be read.
    Unread,
    /// This line of the tree, counted from 1, is none of its grammar, or the tree refuses it.
    BadLine(u64),
    /// The tree has no path to look up.
    NoPaths,
    /// The clock can't be read.
    NoClock,
    /// The table couldn't be written.
    Write,
    /// Memory was refused.
    NoMemory,
}

impl Fault {
    /// The status that the program ends with.
    fn status(&self) -> u8 {
        match self {
            Fault::Words(error) => match error.kind() {
                ErrorKind::DisplayHelp => 0,
                ErrorKind::OutOfMemory => 3,
                _ => 2,
            },
            Fault::NoText | Fault::BadSize => 2,
            Fault::NoMemory => 3,
            Fault::Unread | Fault::NoClock | Fault::Write => 4,
            Fault::BadLine(_) | Fault::NoPaths => 5,
        }
    }

    /// What is said of the fault, but for a limit and for the line that is bad.
    fn text(&self) -> &'static str {
        match self {
            Fault::NoText => "an argument is no text",
            Fault::BadSize => "bad size",
            Fault::Words(_) | Fault::NoMemory => "no memory",
            Fault::Unread => "the tree can't be read",
            Fault::NoClock => "the clock can't be read",
            Fault::Write => "write fault",
            Fault::BadLine(_) => "bad line",
            Fault::NoPaths => "the tree has no path to look up",
        }
    }

    /// Tells the fault, help on standard output and all else on standard error. Answers the status.
    pub fn tell<R: Print + Eprint>(&self, rt: &R) -> u8 {
        let status = self.status();
        let _ = match self {
            Fault::Words(error) if status != 3 => error.print(rt),
            Fault::BadSize => {
                eprintln!(rt; "dcbench: --buckets: a power of two from 1 to {MOST_TABLE_BUCKETS}")
            }
            Fault::BadLine(line) => eprintln!(rt; "dcbench: bad line {line} of the tree"),
            _ => eprintln!(rt; "dcbench: {}", self.text()),
        };
        status
    }
}

impl From<clap::Error> for Fault {
    fn from(error: clap::Error) -> Fault {
        Fault::Words(error)
    }
}

impl From<MakeFault> for Fault {
    fn from(fault: MakeFault) -> Fault {
        match fault {
            MakeFault::BadSize => Fault::BadSize,
            MakeFault::NoMemory => Fault::NoMemory,
        }
    }
}

impl From<ChangeFault> for Fault {
    fn from(_fault: ChangeFault) -> Fault {
        Fault::NoMemory
    }
}

impl From<AllocError> for Fault {
    fn from(_fault: AllocError) -> Fault {
        Fault::NoMemory
    }
}

impl<T: Drop> From<AllocFailed<T>> for Fault {
    fn from(_fault: AllocFailed<T>) -> Fault {
        Fault::NoMemory
    }
}

impl From<io::Error> for Fault {
    fn from(_error: io::Error) -> Fault {
        Fault::Write
    }
}
