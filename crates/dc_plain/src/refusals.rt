//! The first refusal of several tests: each test by `?`.

ghost use Rattle.std.specs.Prelude.{true};
ghost use Rattle.dc_names.specs.Refusals.{Gives};
ghost use Rattle.dc_plain.specs.Refusals.{present, refuse};

use crate::Target;
use dc_names::Refusal;

/// This refusal if the test holds.
pub fn refuse(test: bool, refusal: Refusal) -> Result<(), Refusal>
    ensures { Gives result (λ _. true) (refuse test refusal) }
{
    if test { Err(refusal) } else { Ok(()) }
}

/// What is there, or else this refusal.
pub fn present(there: Option<Target>, refusal: Refusal) -> Result<Target, Refusal>
    ensures { Gives result (λ target. target) (present refusal there) }
{
    there.ok_or(refusal)
}
