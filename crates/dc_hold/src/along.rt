//! A look-up with its trail, in numbers for a program in C.

ghost use Rattle.std.specs.Prelude.{◌≡◌};
ghost use Rattle.dc_hold.specs.Tells.{told_by};
ghost use Rattle.dc_hold.specs.Trails.{tells_along, tells_fast_along};

use crate::status::Status;
use crate::told::{Told, busy, nothing, told_again, told_stamped};
use dc_cache::{FastAlong, Stamped, TooFewPlaces};

/// What an answer says, with how many places its trail takes as the count.
fn counted(stamped: &Stamped, many: usize) -> Told
    ensures { result ≡ (let by = told_by stamped.now in
        record by { found = record by.found { count = many } }) }
{
    let mut told = told_stamped(stamped);
    told.found.count = many as u64;
    told
}

/// What a try to look a path up along its trail says.
#[must_use]
pub fn told_along(tried: &Option<Result<(Stamped, usize), TooFewPlaces>>) -> Told
    ensures { result ≡ tells_along tried.now }
{
    match tried {
        Some(Ok((stamped, many))) => counted(stamped, *many),
        Some(Err(TooFewPlaces)) => nothing(Status::NoRoom),
        None => busy(),
    }
}

/// What a look-up along its trail says by the rows alone.
#[must_use]
pub fn told_fast_along(fast: &FastAlong) -> Told
    ensures { result ≡ tells_fast_along fast.now }
{
    match fast {
        FastAlong::Done(stamped, many) => counted(stamped, *many),
        FastAlong::Again(why) => told_again(why),
        FastAlong::TooFewPlaces => nothing(Status::NoRoom),
    }
}
