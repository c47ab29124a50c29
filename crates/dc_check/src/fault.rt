//! Why the judge takes no stamp.

ghost use Rattle.std.specs.Prelude.{◌≡◌};
ghost use Rattle.dc_check.specs.declared.fault.Fault.TheVariants.{NoMemory as NoRoom};

use dc_names::NoMemory;
use std::alloc::{AllocError, AllocFailed};

/// Why a stamp isn't taken.
#[derive(Clone, Copy)]
pub enum Fault {
    /// The reply of this line is another.
    Reply(u64),
    /// The stamp of this line can't stand here.
    Order(u64),
    /// No stamp alters the tree at this point, and some stamp is further.
    Gap(u64),
    NoMemory,
}

impl From<NoMemory> for Fault {
    ghost from_gives = { λ _ fault. fault ≡ NoRoom };

    fn from(_fault: NoMemory) -> Fault {
        Fault::NoMemory
    }
}

impl From<AllocError> for Fault {
    ghost from_gives = { λ _ fault. fault ≡ NoRoom };

    fn from(_fault: AllocError) -> Fault {
        Fault::NoMemory
    }
}

impl<T: Drop> From<AllocFailed<T>> for Fault {
    ghost from_gives = { λ _ fault. fault ≡ NoRoom };

    fn from(_fault: AllocFailed<T>) -> Fault {
        Fault::NoMemory
    }
}
