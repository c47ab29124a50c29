//! What faults of the cache and of the input are to the server.

ghost use Rattle.std.specs.Prelude.{◌≡◌};
ghost use Rattle.dc_serve.specs.Faults.{from_change, from_input, from_making};
ghost use Rattle.dc_serve.specs.declared.fault.ServeFault.TheVariants.{NoMemory as NoMemoryFault};

use crate::ServeFault;
use dc_cache::{ChangeFault, MakeFault};
use dc_lang::InputFault;
use dc_names::NoMemory;
use std::alloc::{AllocError, AllocFailed};

impl From<NoMemory> for ServeFault {
    ghost from_gives = { λ _ fault. fault ≡ NoMemoryFault };

    fn from(_error: NoMemory) -> ServeFault {
        ServeFault::NoMemory
    }
}

impl From<AllocError> for ServeFault {
    ghost from_gives = { λ _ fault. fault ≡ NoMemoryFault };

    fn from(_error: AllocError) -> ServeFault {
        ServeFault::NoMemory
    }
}

impl<T: Drop> From<AllocFailed<T>> for ServeFault {
    ghost from_gives = { λ _ fault. fault ≡ NoMemoryFault };

    fn from(_error: AllocFailed<T>) -> ServeFault {
        ServeFault::NoMemory
    }
}

impl From<ChangeFault> for ServeFault {
    ghost from_gives = { λ error fault. fault ≡ from_change error };

    fn from(error: ChangeFault) -> ServeFault {
        match error {
            ChangeFault::NoMemory => ServeFault::NoMemory,
            ChangeFault::Spent => ServeFault::Spent,
        }
    }
}

impl From<MakeFault> for ServeFault {
    ghost from_gives = { λ error fault. fault ≡ from_making error };

    fn from(error: MakeFault) -> ServeFault {
        match error {
            MakeFault::BadSize => ServeFault::BadSize,
            MakeFault::NoMemory => ServeFault::NoMemory,
        }
    }
}

impl From<InputFault> for ServeFault {
    ghost from_gives = { λ error fault. fault ≡ from_input error };

    fn from(error: InputFault) -> ServeFault {
        match error {
            InputFault::BadLine(line) => ServeFault::BadLine(line),
            InputFault::NoMemory => ServeFault::NoMemory,
        }
    }
}
