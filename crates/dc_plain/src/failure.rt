//! Why the slow machine carries a call no further.

ghost use Rattle.std.specs.Prelude.{◌≡◌};
ghost use Rattle.dc_names.specs.Refusals.{refusal_of};
ghost use Rattle.dc_plain.specs.declared.failure.Failure.TheVariants.{Refused as IsRefused, NoMemory as WantOfMemory};

use dc_names::{NoMemory, Refusal, TextFault};
use std::alloc::AllocError;

/// Why the slow machine carries no call out.
#[derive(Clone, Copy)]
pub(crate) enum Failure {
    /// The call is refused.
    Refused(Refusal),
    /// Memory was refused.
    NoMemory,
}

impl From<Refusal> for Failure {
    ghost from_gives = { λ refusal failure. failure ≡ IsRefused refusal };

    fn from(refusal: Refusal) -> Failure {
        Failure::Refused(refusal)
    }
}

impl From<TextFault> for Failure {
    ghost from_gives = { λ fault failure. failure ≡ IsRefused (refusal_of fault) };

    fn from(fault: TextFault) -> Failure {
        Failure::Refused(fault.into())
    }
}

impl From<NoMemory> for Failure {
    ghost from_gives = { λ fault failure. failure ≡ WantOfMemory };

    fn from(_fault: NoMemory) -> Failure {
        Failure::NoMemory
    }
}

impl From<AllocError> for Failure {
    ghost from_gives = { λ fault failure. failure ≡ WantOfMemory };

    fn from(_fault: AllocError) -> Failure {
        Failure::NoMemory
    }
}
