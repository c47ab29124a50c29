//! The rule of the table, and what lies in its slot.

use crate::sheet::Sheet;
use atomic_table::{Seat, TableRule};
use dc_index::Index;
use dc_shrink::Shrinker;
use dc_store::SlabStore;

/// What the lock guards: the tree, which row has which key, which rows are in use, how many calls have
/// altered the tree, and how many inodes may live.
#[derive(Drop)]
pub struct Guarded {
    pub store: SlabStore,
    pub index: Index,
    pub shrinker: Shrinker,
    pub clock: u64,
    pub max_inodes: u64,
}

/// The sizes of a table, which never change.
#[derive(Clone, Copy)]
pub struct Limits {
    pub max_inodes: u64,
    pub rows: u64,
}

/// The rule of the table.
pub struct Protocol;

impl TableRule<Option<Box<Guarded>>, Sheet, Limits> for Protocol {
    ghost use Rattle.dc_table.specs.Kept.{Kept, first_sheet};

    ghost holds = { Kept };

    ghost first = { first_sheet };
}

/// What a thread takes its steps with. It takes no bytes.
pub type Pass = Seat<Option<Box<Guarded>>, Sheet>;
