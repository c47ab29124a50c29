//! Whether threads sleep until the lock is free, and so must be woken by the thread that gives it back.
//!
//! A giver that forgets to wake leaves a sleeper hanging: nobody wakes it later. One that wakes before the
//! lock is free wakes a thread that finds it held and sleeps on. One that counts the sleepers before the lock
//! is free misses the thread that comes in between. So waking is no call of its own: each step that frees the
//! lock takes a `Wakes`, and goes through its acts, after the store.
//!
//! A body of such a step that doesn't wake, or that wakes before the store, isn't proved: the step promises
//! `W.woken` of the pass that it hands back. Of a type parameter nothing is known but what its methods say,
//! so `rest` alone gives the fact, once the acts have led to the machine's `Out`, and `freed`, with which they
//! begin, asks for a pass that has given the lock back.

ghost use Rattle.dc_table.specs.Passes.{Fits, IsIdle};

use crate::LOCK;
use crate::acts::Turn;
use crate::shared::Shared;
use crate::table::Pass;
use dc_sleepers::lock::Place;
use std::sync::atomic::Ordering::SeqCst;

/// What the thread that has just given the lock back does for those that wait for it: each method is the act
/// of its name.
pub trait Wakes {
    ghost use Rattle.std.specs.Prelude.{◌≡◌};
    ghost use Rattle.dc_sleepers.specs.Locks.{idle, moved};
    ghost use Rattle.dc_sleepers.specs.LockThreads.{May, next};
    ghost use Rattle.dc_sleepers.specs.declared.lock.Act.TheVariants.{Give, Read, LookDrawn, LookServed, WakeNobody, WakeAll};
    ghost use Rattle.dc_sleepers.specs.declared.lock.Place.TheVariants.{Out, Holding};
    ghost use Rattle.dc_sleepers.specs.declared.lock.Thread.{Thread};
    ghost use Rattle.dc_table.specs.Passes.{Pass, Fits, IsIdle};
    ghost use Rattle.dc_table.specs.declared.acts.Turn.{Turn};

    // The thread of the machine, which these methods alone tell.
    ghost thread: { Turn → Thread };

    // What is true of a pass once it has woken, which `rest` alone tells.
    ghost woken: { Pass → Type 0 };

    /// The pass has given the lock back.
    fn freed(shared: &Shared, pass: &Pass) -> Turn
        requires given_back { Fits shared.now pass.now × IsIdle pass.now }
        ensures gives { thread result ≡ next 0 (moved idle Holding) Give };

    /// Answers how many wait.
    fn read(shared: &Shared, turn: &mut Turn) -> u64
        requires may { May (thread turn.old) Read }
        ensures does { thread turn.new ≡ next result (thread turn.old) Read };

    /// Answers how many tickets were drawn.
    fn look_drawn(shared: &Shared, turn: &mut Turn) -> u64
        requires may { May (thread turn.old) LookDrawn }
        ensures does { thread turn.new ≡ next result (thread turn.old) LookDrawn };

    /// Answers how many were served.
    fn look_served(shared: &Shared, turn: &mut Turn) -> u64
        requires may { May (thread turn.old) LookServed }
        ensures does { thread turn.new ≡ next result (thread turn.old) LookServed };

    /// Wakes one that sleeps until the lock is free, or nobody if none does.
    fn wake_one(shared: &Shared, turn: &mut Turn)
        requires may { May (thread turn.old) WakeNobody }
        ensures does { thread turn.new ≡ next 0 (thread turn.old) WakeNobody };

    fn wake_all(shared: &Shared, turn: &mut Turn)
        requires may { May (thread turn.old) WakeAll }
        ensures does { thread turn.new ≡ next 0 (thread turn.old) WakeAll };

    /// Ends the turn of a thread that owes no wake.
    fn rest(turn: Turn, pass: &Pass)
        requires out { (thread turn).place ≡ Out }
        ensures woken { woken pass.now };
}

/// Threads may sleep until the lock is free, by `Shared::lock`: the thread that gives it back wakes one, or
/// all while one of them is late.
#[derive(Drop, Clone, Copy)]
pub struct Sleepers;

/// No thread ever sleeps until the lock is free, since none calls `Shared::lock`: there is nobody to wake.
#[derive(Drop, Clone, Copy)]
pub struct Nobody;

/// Goes through the acts of a pass that has given the lock back: it wakes one of those that sleep until the
/// lock is free, if any does, or if a ticket is out all of them, as the one might not be the one that may
/// try.
pub(crate) fn wake<W: Wakes>(shared: &Shared, pass: &Pass)
    requires given_back { Fits shared.now pass.now × IsIdle pass.now }
    ensures woken { W.woken pass.now }
{
    let mut turn = W::freed(shared, pass);
    // A sleeper is counted before it looks at the lock for the last time. So one that isn't counted here
    // looks after the lock was freed, and doesn't sleep.
    if W::read(shared, &mut turn) > 0 {
        let drawn = W::look_drawn(shared, &mut turn);
        if W::look_served(shared, &mut turn) == drawn {
            W::wake_one(shared, &mut turn);
        } else {
            W::wake_all(shared, &mut turn);
        }
    }
    W::rest(turn, pass);
}

impl Wakes for Sleepers {
    ghost use Rattle.std.specs.Prelude.{⊤};
    ghost use Rattle.dc_table.specs.Turns.{standing};

    ghost thread = { λ turn. standing turn };

    ghost woken = { λ _. ⊤ };

    fn freed(_shared: &Shared, _pass: &Pass) -> Turn {
        Turn::at(Place::Freed)
    }

    fn read(shared: &Shared, turn: &mut Turn) -> u64 {
        let waiting = shared.waiting.load(SeqCst);
        turn.place = if waiting == 0 {
            Place::Out
        } else {
            Place::Looking
        };
        waiting
    }

    fn look_drawn(shared: &Shared, turn: &mut Turn) -> u64 {
        let drawn = shared.late.drawn.load(SeqCst);
        turn.place = Place::Looked;
        turn.limit = drawn;
        drawn
    }

    fn look_served(shared: &Shared, turn: &mut Turn) -> u64 {
        let served = shared.late.served.load(SeqCst);
        turn.place = if turn.limit == served {
            Place::WakingOne
        } else {
            Place::WakingAll
        };
        served
    }

    fn wake_one(shared: &Shared, turn: &mut Turn) {
        shared.table.shared.wake_one(LOCK);
        turn.place = Place::Out;
    }

    fn wake_all(shared: &Shared, turn: &mut Turn) {
        shared.table.shared.wake_all(LOCK);
        turn.place = Place::Out;
    }

    fn rest(turn: Turn, _pass: &Pass) {
        turn.end();
    }
}

/// Nobody waits, so it is out as soon as it has read that.
impl Wakes for Nobody {
    ghost use Rattle.std.specs.Prelude.{⊤};
    ghost use Rattle.dc_table.specs.Turns.{standing};

    ghost thread = { λ turn. standing turn };

    ghost woken = { λ _. ⊤ };

    fn freed(_shared: &Shared, _pass: &Pass) -> Turn {
        Turn::at(Place::Freed)
    }

    fn read(_shared: &Shared, turn: &mut Turn) -> u64 {
        turn.place = Place::Out;
        0
    }

    fn look_drawn(_shared: &Shared, turn: &mut Turn) -> u64 {
        turn.place = Place::Looked;
        turn.limit = 0;
        0
    }

    fn look_served(_shared: &Shared, turn: &mut Turn) -> u64 {
        turn.place = if turn.limit == 0 {
            Place::WakingOne
        } else {
            Place::WakingAll
        };
        0
    }

    fn wake_one(_shared: &Shared, turn: &mut Turn) {
        turn.place = Place::Out;
    }

    fn wake_all(_shared: &Shared, turn: &mut Turn) {
        turn.place = Place::Out;
    }

    fn rest(turn: Turn, _pass: &Pass) {
        turn.end();
    }
}
