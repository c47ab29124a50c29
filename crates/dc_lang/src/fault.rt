//! Why a line, an input or an output isn't read.

ghost use Rattle.std.specs.Prelude.{◌≡◌};
ghost use Rattle.dc_lang.specs.declared.line.LineFault.TheVariants.{NoMemory as NoMemoryFault};
ghost use Rattle.dc_lang.specs.declared.fault.InputFault.TheVariants.{NoMemory as InputNoMemory};

use crate::LineFault;
use std::alloc::{AllocError, AllocFailed};
use std::error::Error;
use std::fmt;

/// Why an input or an output wasn't read.
#[derive(Clone, Copy, Debug, PartialEq, Eq)]
pub enum InputFault {
    /// This line, counted from 1, is the first that is none of the grammar.
    BadLine(u64),
    /// Memory was refused.
    NoMemory,
}

impl fmt::Display for InputFault {
    fn fmt<W: fmt::Write>(&self, f: &mut fmt::Formatter<W>) -> fmt::Result {
        match self {
            InputFault::BadLine(line) => write!(f, "bad line {line}"),
            InputFault::NoMemory => f.write_str("no memory"),
        }
    }
}

impl Error for InputFault {}

impl From<AllocError> for InputFault {
    ghost from_gives = { λ _ fault. fault ≡ InputNoMemory };

    fn from(_error: AllocError) -> InputFault {
        InputFault::NoMemory
    }
}

impl<T: Drop> From<AllocFailed<T>> for InputFault {
    ghost from_gives = { λ _ fault. fault ≡ InputNoMemory };

    fn from(_error: AllocFailed<T>) -> InputFault {
        InputFault::NoMemory
    }
}

impl fmt::Display for LineFault {
    fn fmt<W: fmt::Write>(&self, f: &mut fmt::Formatter<W>) -> fmt::Result {
        match self {
            LineFault::Bad => f.write_str("bad line"),
            LineFault::NoMemory => f.write_str("no memory"),
        }
    }
}

impl Error for LineFault {}

impl From<AllocError> for LineFault {
    ghost from_gives = { λ _ fault. fault ≡ NoMemoryFault };

    fn from(_error: AllocError) -> LineFault {
        LineFault::NoMemory
    }
}

impl<T: Drop> From<AllocFailed<T>> for LineFault {
    ghost from_gives = { λ _ fault. fault ≡ NoMemoryFault };

    fn from(_error: AllocFailed<T>) -> LineFault {
        LineFault::NoMemory
    }
}
