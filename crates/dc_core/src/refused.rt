//! Why an event is not done.

ghost use Rattle.std.specs.Prelude.{◌≡◌, true, false, MatchResult};
ghost use Rattle.dc_core.specs.declared.refused.Refused.TheVariants.{NoMemory as WantOfMemory};

use dc_names::NoMemory;
use std::alloc::AllocError;
use std::error::Error;
use std::fmt;

/// Why an event was not done.
#[derive(Clone, Copy, Debug, PartialEq, Eq)]
pub enum Refused {
    /// There is no such actor.
    Actor,
    /// The actor has the lock.
    Holder,
    /// The actor has an unanswered call.
    Unfinished,
    /// The lock isn't free.
    Held,
    /// The actor doesn't have the lock.
    NotHolder,
    /// There is no such row.
    NoRow,
    /// The row is odd.
    Odd,
    /// The row is even.
    Even,
    /// The row would get its last count, or has it.
    Spent,
    /// A row has no such word, or it is its count.
    NoWord,
    /// The words spell no row, or one that isn't true in the tree now.
    Untrue,
    /// The actor has no unanswered call.
    NoCall,
    /// The call leaves the tree as it is.
    Unaltered,
    /// The clock has its last value.
    Full,
    /// An even row, the first, has a key that the call touches.
    Touched(u64),
    /// A row, the first, is odd.
    OddRow(u64),
    /// The call alters the tree.
    Alters,
    /// The pivot is made.
    Late,
    /// There is no pivot.
    Early,
    /// There is no such note, or none that may be read or checked.
    NoNote,
    /// The row of a note has another count: the row, the count noted, the count found, in this order.
    Changed(u64, u64, u64),
    /// No memory.
    NoMemory,
}

impl From<NoMemory> for Refused {
    ghost from_gives = { λ fault refused. refused ≡ WantOfMemory };

    fn from(_fault: NoMemory) -> Refused {
        Refused::NoMemory
    }
}

impl From<AllocError> for Refused {
    ghost from_gives = { λ fault refused. refused ≡ WantOfMemory };

    fn from(_fault: AllocError) -> Refused {
        Refused::NoMemory
    }
}

impl fmt::Display for Refused {
    fn fmt<W: fmt::Write>(&self, f: &mut fmt::Formatter<W>) -> fmt::Result {
        let said = match self {
            Refused::Actor => "no such actor",
            Refused::Holder => "the actor has the lock",
            Refused::Unfinished => "the actor has an unanswered call",
            Refused::Held => "the lock is held",
            Refused::NotHolder => "the actor does not have the lock",
            Refused::NoRow => "no such row",
            Refused::Odd => "the row is odd",
            Refused::Even => "the row is even",
            Refused::Spent => "the row has no count left",
            Refused::NoWord => "no such word",
            Refused::Untrue => "the words are not true of the tree",
            Refused::NoCall => "the actor has no unanswered call",
            Refused::Unaltered => "the call leaves the tree as it is",
            Refused::Full => "the clock has its last value",
            Refused::Touched(row) => return write!(f, "row {row} has a key that the call touches"),
            Refused::OddRow(row) => return write!(f, "row {row} is odd"),
            Refused::Alters => "the call alters the tree",
            Refused::Late => "the pivot is made",
            Refused::Early => "there is no pivot",
            Refused::NoNote => "no such note",
            Refused::Changed(row, noted, found) => {
                return write!(f, "row {row} had count {noted} and has {found}");
            }
            Refused::NoMemory => "no memory",
        };
        f.write_str(said)
    }
}

impl Error for Refused {}

/// Refuses as this if a test holds.
pub(crate) fn refuse(test: bool, because: Refused) -> Result<(), Refused>
    ensures { MatchResult result (λ _. test ≡ false) (λ r. (test ≡ true) × (r ≡ because)) }
{
    if test { Err(because) } else { Ok(()) }
}
