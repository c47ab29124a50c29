//! Why a text is no path, and that memory was refused.

ghost use Rattle.std.specs.Prelude.{◌≡◌};
ghost use Rattle.dc_names.specs.Refusals.{fault_number};

use crate::Refusal;
use std::alloc::{AllocError, AllocFailed};
use std::error::Error;
use std::fmt;

/// Why a text is no path. If several hold, the first one here is reported.
#[derive(Clone, Copy, Debug, PartialEq, Eq)]
pub enum TextFault {
    /// There is no byte (POSIX 4.13: a null pathname does not resolve).
    Empty,
    /// The text has more than `PATH_MAX` bytes, or a component more than `NAME_MAX`.
    Long,
    /// A zero byte stands in it.
    Zero,
}

impl TextFault {
    /// The number of the refusal: ENOENT 2, ENAMETOOLONG 36, EINVAL 22.
    #[must_use]
    pub fn number(self) -> u64
        ensures { result ≡ fault_number self }
    {
        Refusal::from(self).number()
    }
}

impl fmt::Display for TextFault {
    fn fmt<W: fmt::Write>(&self, f: &mut fmt::Formatter<W>) -> fmt::Result {
        f.write_str(match self {
            TextFault::Empty => "the path is empty",
            TextFault::Long => "the path or a component is too long",
            TextFault::Zero => "the path has a zero byte",
        })
    }
}

impl Error for TextFault {}

/// Memory was refused. What answers it has changed nothing, unless its own text says otherwise.
#[derive(Clone, Copy, Debug, PartialEq, Eq)]
pub struct NoMemory;

impl fmt::Display for NoMemory {
    fn fmt<W: fmt::Write>(&self, f: &mut fmt::Formatter<W>) -> fmt::Result {
        f.write_str("no memory")
    }
}

impl Error for NoMemory {}

impl From<AllocError> for NoMemory {
    fn from(_error: AllocError) -> NoMemory {
        NoMemory
    }
}

impl<T: Drop> From<AllocFailed<T>> for NoMemory {
    fn from(_failed: AllocFailed<T>) -> NoMemory {
        NoMemory
    }
}
