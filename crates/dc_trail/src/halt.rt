//! Why a walk that keeps its trail has no outcome.

/// Why a walk that keeps its trail has no outcome.
#[derive(Clone, Copy, Debug, PartialEq, Eq)]
pub enum Halt<S> {
    /// Its finder gave up.
    Finder(S),
    /// It asks in more directories than there are places for.
    Full,
}
