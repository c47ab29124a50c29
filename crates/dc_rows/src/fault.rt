//! The two faults of a change that the tree itself wouldn't refuse.

ghost use Rattle.dc_rows.specs.declared.fault.ChangeFault.TheVariants.{NoMemory as WantOfMemory};
ghost use Rattle.std.specs.Prelude.{◌≡◌};

use dc_names::NoMemory;
use std::error::Error;
use std::fmt;

/// Why a change isn't made.
#[derive(Clone, Copy, Debug, PartialEq, Eq)]
pub enum ChangeFault {
    /// No memory. Nothing has changed, and nothing is recorded.
    NoMemory,
    /// As many calls have altered the tree as ever may: 2^62. Nothing has changed, and nothing is
    /// recorded.
    Spent,
}

impl fmt::Display for ChangeFault {
    fn fmt<W: fmt::Write>(&self, f: &mut fmt::Formatter<W>) -> fmt::Result {
        f.write_str(match self {
            ChangeFault::NoMemory => "no memory",
            ChangeFault::Spent => "as many calls have altered the tree as ever may",
        })
    }
}

impl Error for ChangeFault {}

impl From<NoMemory> for ChangeFault {
    ghost from_gives = { λ fault change. change ≡ WantOfMemory };

    fn from(_fault: NoMemory) -> ChangeFault {
        ChangeFault::NoMemory
    }
}
