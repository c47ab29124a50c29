//! Why a row gets no further pin.

ghost use Rattle.std.specs.Prelude.{◌≡◌};
ghost use Rattle.dc_shrink.specs.declared.fault.PinFault.TheVariants.{NoMemory as NoMemoryFault};

use dc_names::NoMemory;
use std::error::Error;
use std::fmt;

/// Why a row gets no further pin.
#[derive(Clone, Copy, Debug, PartialEq, Eq)]
pub enum PinFault {
    /// Memory was refused.
    NoMemory,
    /// The row has `MOST_COUNT` pins.
    Most,
}

impl From<NoMemory> for PinFault {
    ghost from_gives = { λ _ fault. fault ≡ NoMemoryFault };

    fn from(_refused: NoMemory) -> PinFault {
        PinFault::NoMemory
    }
}

impl fmt::Display for PinFault {
    fn fmt<W: fmt::Write>(&self, f: &mut fmt::Formatter<W>) -> fmt::Result {
        f.write_str(match self {
            PinFault::NoMemory => "no memory",
            PinFault::Most => "too many pins",
        })
    }
}

impl Error for PinFault {}
