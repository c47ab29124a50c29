//! What one actor has.

ghost use Rattle.std.specs.Prelude.{◌≤◌, length};

use dc_plain::OwnCall;

/// A row's count as a walk saw it, and the words that were read after it.
#[derive(Drop)]
pub struct Note {
    pub row: u64,
    /// The count, and then the other words of the row as far as they were read.
    pub words: Vec<u64>,
    pub checked: bool,
    pub ghost counted: { 1 ≤ length words.items },
}

/// An actor.
#[derive(Drop)]
pub struct Actor {
    /// The unanswered call, if there is one. Without one there are no notes and there is no pivot.
    pub call: Option<OwnCall>,
    pub notes: Vec<Note>,
    pub pivot: Option<u64>,
    /// The greatest clock that it knows of.
    pub seen: u64,
    pub holds: bool,
    /// How many words its walks have loaded.
    pub loads: u64,
}
