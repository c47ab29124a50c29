//! The causes for which a walk over rows gives up, as a caller sees them and as they are printed.

use std::error::Error;
use std::fmt;

/// Why a walk ends without an answer.
#[derive(Clone, Copy, Debug, PartialEq, Eq)]
pub enum Why {
    /// No row tells of an entry that is asked for, after this many questions were answered.
    Miss(u64),
    /// The row was being changed as this walk came to it. That it is one of the bucket of a key that was
    /// asked for, and that no other row of the bucket told of the key, stands only by reading.
    Busy(u64),
    /// The row had the noted count, and has the found one now, which is higher. That the noted count is
    /// the one of the row whose answer was used stands only by reading.
    Changed { row: u64, noted: u64, found: u64 },
    /// One row more would be used than can be noted. No name is too long for a row.
    Long,
    /// No row has the text of a link that must be followed.
    Link,
    /// Memory was refused as a row was filled or pinned. Never of a walk without the lock.
    Memory,
}

impl fmt::Display for Why {
    fn fmt<W: fmt::Write>(&self, f: &mut fmt::Formatter<W>) -> fmt::Result {
        match self {
            Why::Miss(answered) => write!(f, "no row has the name after {answered} questions"),
            Why::Busy(row) => write!(f, "row {row} is being changed"),
            Why::Changed { row, noted, found } => {
                write!(f, "row {row} went from count {noted} to {found}")
            }
            Why::Long => f.write_str("the path is too long for the rows"),
            Why::Link => f.write_str("no row has the text of the link"),
            Why::Memory => f.write_str("no memory for a row"),
        }
    }
}

impl Error for Why {}
