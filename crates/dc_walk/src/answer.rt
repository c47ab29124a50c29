//! The answer type of `walk_fast` and `walk_counted`: an answer with its point, or a cause.

use crate::why::Why;
use dc_plain::Stamped;

/// What a look-up that rests on rows comes to.
#[derive(Debug, Drop)]
#[must_use]
pub enum Fast {
    /// An answer, and the point at which it was true.
    Done(Stamped),
    /// No answer.
    Again(Why),
}
