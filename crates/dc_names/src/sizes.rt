//! The sizes that a cache may have, and why none was made.

ghost use Rattle.std.specs.Prelude.{◌≡◌};
ghost use Rattle.dc_names.specs.Sizes.{are_right};
ghost use Rattle.dc_names.specs.declared.sizes.MakeFault.TheVariants.{NoMemory as WantOfMemory};

use crate::{MOST_BUCKETS, MOST_INODES, NoMemory};
use std::alloc::AllocError;
use std::error::Error;
use std::fmt;

/// Whether a cache may have this many buckets, and this many inodes live in it.
#[must_use]
pub fn are_right(buckets: u64, max_inodes: u64) -> bool
    ensures { result ≡ are_right buckets max_inodes }
{
    (1..=MOST_BUCKETS).contains(&buckets)
        && buckets.is_power_of_two()
        && (1..=MOST_INODES).contains(&max_inodes)
}

/// Why no cache was made.
#[derive(Clone, Copy, Debug, PartialEq, Eq)]
pub enum MakeFault {
    /// A number of buckets that is no power of two, or it or the limit of inodes is 0 or too large: above
    /// `MOST_BUCKETS` or `MOST_INODES`, or, for a table of any size, `MOST_TABLE_BUCKETS` or
    /// `MOST_TABLE_INODES`.
    BadSize,
    /// Memory was refused.
    NoMemory,
}

impl fmt::Display for MakeFault {
    fn fmt<W: fmt::Write>(&self, f: &mut fmt::Formatter<W>) -> fmt::Result {
        f.write_str(match self {
            MakeFault::BadSize => "bad size",
            MakeFault::NoMemory => "no memory",
        })
    }
}

impl Error for MakeFault {}

impl From<NoMemory> for MakeFault {
    ghost from_gives = { λ _ made. made ≡ WantOfMemory };

    fn from(_refused: NoMemory) -> MakeFault {
        MakeFault::NoMemory
    }
}

impl From<AllocError> for MakeFault {
    ghost from_gives = { λ _ made. made ≡ WantOfMemory };

    fn from(_refused: AllocError) -> MakeFault {
        MakeFault::NoMemory
    }
}
