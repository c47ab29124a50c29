//! The words, the tree, the actors and the records of a core.

use crate::actor::Actor;
use dc_plain::{OwnCall, PlainTree, Reply};

/// An answered call.
#[derive(Debug, Drop, PartialEq, Eq)]
pub struct Finished {
    /// Whose call it was.
    pub actor: u64,
    /// The call.
    pub call: OwnCall,
    /// Its answer.
    pub reply: Reply,
    /// How many calls had altered the tree before its point.
    pub at: u64,
}

/// A core between two events: its table and tree, what each actor is doing, and what was answered.
#[derive(Drop)]
pub struct State {
    /// The clock, the lock, and then `ROW_WORDS` words for each row, its count first.
    pub words: Vec<u64>,
    pub tree: PlainTree,
    pub actors: Vec<Actor>,
    pub finished: Vec<Finished>,
    pub rows: u64,
}
