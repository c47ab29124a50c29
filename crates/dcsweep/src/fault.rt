//! The faults of a trial that comes to no call.

use dc_check::RecordFault;
use dc_lang::InputFault;
use dc_names::{MakeFault, NoMemory};
use dc_serve::ServeFault;
use std::alloc::{AllocError, AllocFailed};
use std::fmt;

/// Why a trial isn't made.
#[derive(Clone, Copy)]
pub enum Fault {
    /// Memory was refused before the call of the trial, or as it was judged.
    Setup,
    /// The words or the lines name no trial.
    Words,
}

impl fmt::Display for Fault {
    fn fmt<W: fmt::Write>(&self, f: &mut fmt::Formatter<W>) -> fmt::Result {
        f.write_str(match self {
            Fault::Setup => "refused outside the call",
            Fault::Words => "no such trial",
        })
    }
}

impl From<NoMemory> for Fault {
    fn from(_fault: NoMemory) -> Fault {
        Fault::Setup
    }
}

impl From<MakeFault> for Fault {
    fn from(_fault: MakeFault) -> Fault {
        Fault::Setup
    }
}

impl From<InputFault> for Fault {
    fn from(fault: InputFault) -> Fault {
        match fault {
            InputFault::NoMemory => Fault::Setup,
            InputFault::BadLine(_) => Fault::Words,
        }
    }
}

impl From<ServeFault> for Fault {
    fn from(_fault: ServeFault) -> Fault {
        Fault::Setup
    }
}

impl From<RecordFault> for Fault {
    fn from(_fault: RecordFault) -> Fault {
        Fault::Setup
    }
}

impl From<AllocError> for Fault {
    fn from(_fault: AllocError) -> Fault {
        Fault::Setup
    }
}

impl<T: Drop> From<AllocFailed<T>> for Fault {
    fn from(_fault: AllocFailed<T>) -> Fault {
        Fault::Setup
    }
}
