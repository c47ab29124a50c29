//! What a change is to do.

ghost use Rattle.std.specs.Prelude.{◌≡◌};
ghost use Rattle.dc_ops.specs.Taken.{taken};

use dc_names::{Kind, Name};
use dc_plain::{Key, Spot, Target};
use dc_store::New;

/// An inode that gets another name.
#[derive(Clone, Copy)]
pub struct Moved {
    /// Its number.
    pub number: u64,
    /// Whether it is a directory whose parent becomes another.
    pub reparents: bool,
}

/// What a change is to do to a store.
#[derive(Clone, Copy)]
pub enum Plan<'a> {
    /// An entry comes to a directory.
    Add {
        /// The directory's number.
        dir: u64,
        /// The name that the entry gets there.
        name: Name<'a>,
        /// What the entry leads to.
        new: New<'a>,
        /// The number of the inode that the entry leads to.
        number: u64,
    },
    /// An entry goes, and with its last name the inode that it leads to.
    Drop {
        /// The directory's number.
        dir: u64,
        /// The name of the entry there.
        name: Name<'a>,
        /// The number of the inode that the entry leads to.
        number: u64,
        /// What that inode is.
        kind: Kind,
        /// The key of that inode's own which goes with its last name.
        lost: Option<Key<'a>>,
    },
    /// An entry moves to another name, in the place of what stands there.
    Move {
        /// The name that it has.
        from: Spot<'a>,
        /// The name that it gets.
        to: Spot<'a>,
        /// The number of the inode that the entry leads to.
        number: u64,
        /// Whether that is a directory whose parent becomes another.
        reparents: bool,
        /// What stands at the new name, if anything.
        over: Option<Target>,
        /// The key of its own that what stood at the new name has, if that was its last name.
        lost: Option<Key<'a>>,
    },
    /// Two entries swap what they lead to.
    Swap {
        /// One name.
        from: Spot<'a>,
        /// The other name.
        to: Spot<'a>,
        /// What stands at the one name, and gets the other.
        first: Moved,
        /// What stands at the other name, and gets the one.
        second: Moved,
    },
}

impl Plan<'_> {
    /// What goes by it: what its entry leads to, or what stands where an entry moves. It goes as one of the
    /// names of an inode, and the inode with it if that is the last.
    #[must_use]
    pub fn taken(&self) -> Option<Target>
        ensures { result ≡ taken self.now }
    {
        match *self {
            Plan::Drop { number, kind, .. } => Some((number, kind)),
            Plan::Move { over, .. } => over,
            Plan::Add { .. } | Plan::Swap { .. } => None,
        }
    }
}
