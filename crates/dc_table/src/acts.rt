//! The steps on the words by which threads wait for the lock and wake each other, as acts of the machine of
//! `dc_sleepers`.
//!
//! Of that machine it is proved that no sleeper is forgotten, which says nothing of a thread that takes its
//! steps in another order, or leaves one out. So a thread that comes for the lock, or has given it back, has
//! a `Turn`, and each step on it is a method of `Waits` or of `Wakes`, named as the act: it asks that the
//! machine's thread may take the act, and says what that becomes. `lock` and the steps that free the lock go
//! by these methods alone, for any type that has them. Of a type parameter nothing is known but what its
//! methods say, so a body that turns two steps round, or that ends where the machine's thread can't, isn't
//! proved. What is read only to decide when to try, and how long to watch the lock, is no act.
//!
//! That each method of `Sleepers` makes the one step of its name on the words is for the reader to see.

ghost use Rattle.std.specs.Prelude.{◌≡◌};
ghost use Rattle.dc_sleepers.specs.Locks.{idle, moved};
ghost use Rattle.dc_table.specs.Turns.{standing};

pub mod waits;
pub mod wakes;

use dc_sleepers::lock::{Place, Thread};

/// Where a thread stands at the lock, between two of its steps. It isn't `Drop`: it ends by `Waits::hold` or
/// `Wakes::rest`. So no thread stops halfway.
pub struct Turn {
    place: Place,
    /// How often it has slept, or was about to, since it came for the lock.
    sleeps: u64,
    /// The rest is what the machine's thread has under these names.
    has_ticket: bool,
    ticket: u64,
    limit: u64,
    seen: u64,
}

impl Turn {
    /// The turn of a thread that stands here, and has read nothing yet.
    fn at(place: Place) -> Turn
        ensures { standing result ≡ moved idle place }
    {
        Turn {
            place,
            sleeps: 0,
            has_ticket: false,
            ticket: 0,
            limit: 0,
            seen: 0,
        }
    }

    /// The machine's thread.
    fn thread(&self) -> Thread
        ensures { result ≡ standing self.now }
    {
        Thread {
            place: self.place,
            has_slept: self.sleeps > 0,
            has_ticket: self.has_ticket,
            ticket: self.ticket,
            limit: self.limit,
            seen: self.seen,
        }
    }

    /// Ends it.
    fn end(self) {
        let Turn {
            place: _,
            sleeps: _,
            has_ticket: _,
            ticket: _,
            limit: _,
            seen: _,
        } = self;
    }
}
