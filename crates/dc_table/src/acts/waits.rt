//! The acts of a thread that comes for the lock and waits for it.

use crate::acts::Turn;
use crate::acts::wakes::Sleepers;
use crate::shared::Shared;
use crate::table::{Guarded, Pass};
use crate::{LOCK, NAP, TAKEN};
use dc_sleepers::lock::{Place, Thread};
use std::sync::Wait;
use std::sync::atomic::Ordering::SeqCst;
use std::time::Duration;

/// A thread that comes for the lock and waits for it: each method is the act of its name.
pub trait Waits {
    ghost use Rattle.std.specs.Prelude.{◌≡◌, IfSome, IfNone};
    ghost use Rattle.dc_sleepers.specs.Locks.{idle, moved};
    ghost use Rattle.dc_sleepers.specs.LockThreads.{May, next};
    ghost use Rattle.dc_sleepers.specs.declared.lock.Act.TheVariants.{Come, Try, CountLate, Draw, CountIn, ReadDrawn, ReadServed, Insist, Park, Yield, CountOut, CountLateOut, Serve, WakeKept};
    ghost use Rattle.dc_sleepers.specs.declared.lock.Place.TheVariants.{Holding, Awake};
    ghost use Rattle.dc_sleepers.specs.declared.lock.Thread.{Thread};
    ghost use Rattle.dc_table.specs.Holders.{FoundHeld, TriedOnce};
    ghost use Rattle.dc_table.specs.Passes.{Pass, known, Fits, IsSamePass, IsIdle, IsHolder};
    ghost use Rattle.dc_table.specs.Plays.{Took};
    ghost use Rattle.dc_table.specs.declared.acts.Turn.{Turn};

    // The thread of the machine, which these methods alone tell.
    ghost thread: { Turn → Thread };

    // What is true of a pass that came to have the lock by these acts, which `hold` alone tells.
    ghost came: { Pass → Type 0 };

    /// What the thread has read, and where it stands.
    fn stands(turn: &Turn) -> Thread
        ensures is { result ≡ thread turn.now };

    /// How often it has slept since it came.
    fn sleeps(turn: &Turn) -> u64;

    fn come(pass: &Pass) -> Turn
        requires out { IsIdle pass.now }
        ensures comes { thread result ≡ next 0 idle Come };

    /// Takes what the lock guards out of its slot, if it was free. Else it stands as it did.
    fn try_take(shared: &Shared, pass: &mut Pass, turn: &mut Turn) -> Option<Box<Guarded>>
        requires pass { Fits shared.now pass.old × IsIdle pass.old }
        requires may { May (thread turn.old) Try }
        ensures same { IsSamePass pass.old pass.new }
        ensures taken { IfSome result (λ guarded.
            IsHolder pass.new × Took (known pass.old) (known pass.new) guarded.value) }
        ensures once { TriedOnce pass.old pass.new }
        ensures held { IfNone result (FoundHeld pass.old pass.new) }
        ensures gets { IfSome result (λ _. thread turn.new ≡ next 0 (thread turn.old) Try) }
        ensures tries_on { IfNone result (thread turn.new ≡ thread turn.old) };

    fn count_late(shared: &Shared, turn: &mut Turn)
        requires may { May (thread turn.old) CountLate }
        ensures does { thread turn.new ≡ next 0 (thread turn.old) CountLate };

    /// Answers the ticket.
    fn draw(shared: &Shared, turn: &mut Turn) -> u64
        requires may { May (thread turn.old) Draw }
        ensures does { thread turn.new ≡ next result (thread turn.old) Draw };

    fn count_in(shared: &Shared, turn: &mut Turn)
        requires may { May (thread turn.old) CountIn }
        ensures does { thread turn.new ≡ next 0 (thread turn.old) CountIn };

    /// Answers its ticket, or, if it has none, how many were drawn. Those below this go before it.
    fn read_drawn(shared: &Shared, turn: &mut Turn) -> u64
        requires may { May (thread turn.old) ReadDrawn }
        ensures does { thread turn.new ≡ next result (thread turn.old) ReadDrawn }
        ensures limit { (thread turn.new).limit ≡ result };

    /// Answers how many were served.
    fn read_served(shared: &Shared, turn: &mut Turn) -> u64
        requires may { May (thread turn.old) ReadServed }
        ensures does { thread turn.new ≡ next result (thread turn.old) ReadServed };

    fn insist(turn: &mut Turn)
        requires may { May (thread turn.old) Insist }
        ensures does { thread turn.new ≡ next 0 (thread turn.old) Insist };

    /// Until it is awake again.
    fn park<R: Wait>(shared: &Shared, rt: &R, turn: &mut Turn)
        requires may { May (thread turn.old) Park }
        ensures awake { thread turn.new ≡ moved (thread turn.old) Awake };

    /// Until it is awake again.
    fn yield_turn<R: Wait>(shared: &Shared, rt: &R, turn: &mut Turn)
        requires may { May (thread turn.old) Yield }
        ensures awake { thread turn.new ≡ moved (thread turn.old) Awake };

    fn count_out(shared: &Shared, turn: &mut Turn)
        requires may { May (thread turn.old) CountOut }
        ensures does { thread turn.new ≡ next 0 (thread turn.old) CountOut };

    fn count_late_out(shared: &Shared, turn: &mut Turn)
        requires may { May (thread turn.old) CountLateOut }
        ensures does { thread turn.new ≡ next 0 (thread turn.old) CountLateOut };

    fn serve(shared: &Shared, turn: &mut Turn)
        requires may { May (thread turn.old) Serve }
        ensures does { thread turn.new ≡ next 0 (thread turn.old) Serve };

    fn wake_kept(shared: &Shared, turn: &mut Turn)
        requires may { May (thread turn.old) WakeKept }
        ensures does { thread turn.new ≡ next 0 (thread turn.old) WakeKept };

    /// Ends the turn of a thread that has the lock.
    fn hold(turn: Turn, pass: &Pass)
        requires has { IsHolder pass.now }
        requires holding { (thread turn).place ≡ Holding }
        ensures came { came pass.now };
}

impl Waits for Sleepers {
    ghost use Rattle.std.specs.Prelude.{⊤};
    ghost use Rattle.dc_table.specs.Turns.{standing};

    ghost thread = { λ turn. standing turn };

    ghost came = { λ _. ⊤ };

    fn stands(turn: &Turn) -> Thread {
        turn.thread()
    }

    fn sleeps(turn: &Turn) -> u64 {
        turn.sleeps
    }

    fn come(_pass: &Pass) -> Turn {
        Turn::at(Place::Trying)
    }

    fn try_take(shared: &Shared, pass: &mut Pass, turn: &mut Turn) -> Option<Box<Guarded>> {
        let guarded = shared.try_take(pass)?;
        turn.place = if turn.has_ticket {
            Place::Got
        } else {
            Place::Holding
        };
        Some(guarded)
    }

    fn count_late(shared: &Shared, turn: &mut Turn) {
        shared.waiting.fetch_add(1, SeqCst);
        turn.place = Place::Drawing;
    }

    fn draw(shared: &Shared, turn: &mut Turn) -> u64 {
        let ticket = shared.late.drawn.fetch_add(1, SeqCst);
        turn.place = Place::Trying;
        turn.has_ticket = true;
        turn.ticket = ticket;
        ticket
    }

    fn count_in(shared: &Shared, turn: &mut Turn) {
        shared.waiting.fetch_add(1, SeqCst);
        turn.place = Place::Counted;
    }

    fn read_drawn(shared: &Shared, turn: &mut Turn) -> u64 {
        let limit = if turn.has_ticket {
            turn.ticket
        } else {
            shared.late.drawn.load(SeqCst)
        };
        turn.place = Place::Choosing;
        turn.limit = limit;
        limit
    }

    fn read_served(shared: &Shared, turn: &mut Turn) -> u64 {
        let served = shared.late.served.load(SeqCst);
        turn.place = if served < turn.limit {
            Place::Yielding
        } else {
            Place::Parking
        };
        turn.seen = served;
        served
    }

    fn insist(turn: &mut Turn) {
        turn.place = Place::Parking;
    }

    fn park<R: Wait>(shared: &Shared, rt: &R, turn: &mut Turn) {
        let nap = Duration::from_millis(NAP);
        shared
            .table
            .shared
            .park_timeout(rt, LOCK, TAKEN as u32, nap);
        turn.place = Place::Awake;
    }

    fn yield_turn<R: Wait>(shared: &Shared, rt: &R, turn: &mut Turn) {
        // What is compared is the word's low half.
        let low = (turn.seen % (1 << 32)) as u32;
        shared
            .late
            .served
            .park_timeout(rt, low, Duration::from_millis(NAP));
        turn.place = Place::Awake;
    }

    fn count_out(shared: &Shared, turn: &mut Turn) {
        shared.waiting.fetch_sub(1, SeqCst);
        turn.place = Place::Trying;
        turn.sleeps = turn.sleeps.saturating_add(1);
    }

    fn count_late_out(shared: &Shared, turn: &mut Turn) {
        shared.waiting.fetch_sub(1, SeqCst);
        turn.place = Place::Serving;
    }

    fn serve(shared: &Shared, turn: &mut Turn) {
        shared.late.served.fetch_add(1, SeqCst);
        turn.place = Place::Served;
        turn.has_ticket = false;
    }

    fn wake_kept(shared: &Shared, turn: &mut Turn) {
        shared.late.served.wake_all();
        turn.place = Place::Holding;
    }

    fn hold(turn: Turn, _pass: &Pass) {
        turn.end();
    }
}
