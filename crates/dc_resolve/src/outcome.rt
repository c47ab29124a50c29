//! What a resolution comes to, step by step.

use crate::Walked;
use dc_names::Refusal;
use dc_plain::Target;

/// Where a walk over some bytes comes to.
pub(crate) enum Way {
    Ended(Walked),
    /// The place after the last of them, and how many links may be followed from there.
    Through(Target, u64),
}

/// What a part leads to, by its number.
pub(crate) enum Reached {
    Dir(u64),
    File(u64),
    Stops(Refusal),
    Meets(u64),
}
