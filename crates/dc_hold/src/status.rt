//! The numbers by which a call tells a program in C how it ended.

ghost use Rattle.std.specs.Prelude.{◌≡◌};
ghost use Rattle.dc_hold.specs.Numbers.{status_number, status_of_fault, status_of_learn, status_of_make};

use dc_cache::{ChangeFault, MakeFault};
use dc_names::MOST_ERRNO;

/// How a call of a program in C ends. All but `Done` and `Refused` leave nothing recorded.
#[derive(Clone, Copy, Debug, PartialEq, Eq)]
pub enum Status {
    /// It is answered.
    Done,
    /// It is answered by a refusal, with the number of the error on Linux.
    Refused(u64),
    /// Another pass had the lock.
    Busy,
    /// The rows alone don't answer.
    Again,
    /// Memory was refused.
    NoMemory,
    /// The tree was altered as often as it may be.
    Spent,
    /// A cache may not have these sizes.
    BadSize,
    /// A blank pass for an open one, an open one for a blank one, or one of another cache.
    BadPass,
    /// A number that says neither how a link is followed nor how a rename may go, no room for a path or for
    /// entries, or bytes in the place of a name that are none.
    BadArgument,
    /// The tree has not been altered this often yet.
    NotYet,
    /// A trail has more directories than there are places for it.
    NoRoom,
}

impl Status {
    /// Its number in C: 0, the number of an error, or one below 0.
    #[must_use]
    pub fn number(self) -> i32
        ensures { result ≡ status_number self }
    {
        match self {
            Status::Done => 0,
            Status::Refused(number) => number.min(MOST_ERRNO) as i32,
            Status::Busy => -1,
            Status::Again => -2,
            Status::NoMemory => -3,
            Status::Spent => -4,
            Status::BadSize => -5,
            Status::BadPass => -6,
            Status::BadArgument => -7,
            Status::NotYet => -8,
            Status::NoRoom => -9,
        }
    }

    /// How the making of a cache that failed ends.
    #[must_use]
    pub fn of_make(fault: MakeFault) -> Status
        ensures { result ≡ status_of_make fault }
    {
        match fault {
            MakeFault::BadSize => Status::BadSize,
            MakeFault::NoMemory => Status::NoMemory,
        }
    }

    /// How a call ends that asks whether this many changes were made.
    #[must_use]
    pub fn of_learn(has_come: bool) -> Status
        ensures { result ≡ status_of_learn has_come }
    {
        if has_come {
            Status::Done
        } else {
            Status::NotYet
        }
    }

    /// How a change that wasn't made ends.
    #[must_use]
    pub fn of_change(fault: ChangeFault) -> Status
        ensures { result ≡ status_of_fault fault }
    {
        match fault {
            ChangeFault::NoMemory => Status::NoMemory,
            ChangeFault::Spent => Status::Spent,
        }
    }
}
