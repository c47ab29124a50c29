//! The lock of a table, with its tickets: words, and what a thread has read of them.
//!
//! A sleeper hangs for ever if it is forgotten. A thread that waits counts itself first, and in its last step
//! falls asleep only if the word says that the lock is held. A giver frees the word first, and then reads the
//! count. So either the giver counts the sleeper, or the sleeper looks behind the giver.
//!
//! A thread that has slept may draw a ticket. One that finds a smaller ticket out than its own sleeps until
//! one more is served. So the one that a giver wakes may sleep again without a try: then the thread with the
//! least ticket, drawn since the giver looked, looks at the lock before it sleeps. A giver that sees a ticket
//! wakes all.
//!
//! Whether an awake thread tries at once, watches the word for a while or goes on to sleep is left open here,
//! as no sleeper depends on that: so what is read only to decide it is no step.

ghost use Rattle.std.specs.Prelude.{◌≡◌, IfOk, IsSome, IfSome, ◌↔◌, ◌<◌, length};
ghost use Rattle.dc_sleepers.specs.Locks.{opening, after, thread_of, Can};
ghost use Rattle.dc_sleepers.specs.LockSteps.{HasRoom};
ghost use Rattle.dc_sleepers.specs.Outcomes.{Outcome};
ghost use Rattle.dc_sleepers.specs.LockLaw.{Remembers};

use crate::locking::State;
use std::alloc::{AllocError, Global};
use std::marker::Model;

/// Where a thread stands between two steps.
#[derive(Clone, Copy, PartialEq, Eq)]
pub enum Place {
    /// It doesn't want the lock.
    Out,
    /// It wants the lock, is awake and isn't counted as one that is about to sleep.
    Trying,
    /// It has counted itself as late, and draws its ticket next.
    Drawing,
    /// It is counted, and its read of the tickets drawn is still before it.
    Counted,
    /// Its read of the tickets served is still before it.
    Choosing,
    /// Its last look at the lock is still before it.
    Parking,
    /// A late thread goes before it, and its last look at the tickets served is still before it.
    Yielding,
    /// It sleeps until the lock is free, and is counted.
    Asleep,
    /// It sleeps until one more ticket is served, and is counted.
    Kept,
    /// It was woken, or not put to sleep. It is counted still.
    Awake,
    /// It has the lock and a ticket, and counts itself out as late next.
    Got,
    /// Its ticket is served next.
    Serving,
    /// It wakes those that it kept off next.
    Served,
    /// It has the lock, and no ticket.
    Holding,
    /// It has freed the lock, and its read of the count is still before it.
    Freed,
    /// It has read that threads wait, and its read of the tickets drawn is still before it.
    Looking,
    /// Its read of the tickets served is still before it.
    Looked,
    /// It wakes one next.
    WakingOne,
    /// It wakes all next.
    WakingAll,
}

/// A step of a thread.
#[derive(Clone, Copy)]
pub enum Act {
    /// It comes for the lock, and will wait for it.
    Come,
    /// It tries once, and doesn't wait.
    TryOnce,
    /// It tries: it gets the lock if the word says free.
    Try,
    /// It has slept, and counts itself as late.
    CountLate,
    /// It draws a ticket.
    Draw,
    /// It counts itself among those that are about to sleep.
    CountIn,
    /// It reads how many tickets were drawn, if it has none.
    ReadDrawn,
    /// It reads how many were served: if that is less than its limit, a late thread goes before it.
    ReadServed,
    /// It has slept so often that it waits for no late thread.
    Insist,
    /// In one step it looks at the lock and falls asleep if that is held.
    Park,
    /// In one step it looks how many are served and falls asleep if that is what it read.
    Yield,
    /// It wakes up for no reason, or as its time is over, though the lock may be held.
    WakeUp,
    /// It wakes up for no reason, or as its time is over, though no more ticket may be served.
    WakeKeptUp,
    /// It counts itself out.
    CountOut,
    /// It counts itself out as late.
    CountLateOut,
    /// Its ticket is served.
    Serve,
    /// It wakes all that sleep until one more ticket is served.
    WakeKept,
    /// It frees the lock.
    Give,
    /// It reads how many wait, and if any does goes on to wake.
    Read,
    /// It reads how many tickets were drawn.
    LookDrawn,
    /// It reads how many were served: if that is another number it wakes all, else one.
    LookServed,
    /// It wakes this thread, any one that sleeps until the lock is free.
    Wake(usize),
    /// It wakes nobody, as nobody sleeps until the lock is free.
    WakeNobody,
    /// It wakes all that sleep until the lock is free.
    WakeAll,
}

/// Who takes which step.
#[derive(Clone, Copy)]
pub struct Event {
    /// Which thread, from 0 on.
    pub thread: usize,
    /// What it does.
    pub act: Act,
}

/// A thread, and what it has read.
#[derive(Clone, Copy)]
pub struct Thread {
    pub place: Place,
    /// Whether it has slept, or was about to, since it came for the lock.
    pub has_slept: bool,
    /// Whether it has a ticket.
    pub has_ticket: bool,
    /// The ticket that it has or had, counted from 0 on.
    pub ticket: u64,
    /// Its ticket, or how many were drawn when it read that: those below this go before it.
    pub limit: u64,
    /// How many were served when it read that last.
    pub seen: u64,
}

/// A lock with its threads.
#[derive(Drop)]
pub struct Lock {
    state: State,
}

impl Model for Lock {
    ghost use Rattle.dc_sleepers.specs.Locks.{State};

    ghost Value = { State };

    ghost use Rattle.dc_sleepers.specs.LocksShown.{state_in, IsKept};

    ghost view = { state_in };

    ghost invariant = { IsKept };
}

impl Lock {
    /// A free lock, and threads that don't want it.
    pub fn new(alloc: Global, threads: usize) -> Result<Lock, AllocError>
        ensures { IfOk result (λ lock. lock ≡ opening threads) }
    {
        Ok(Lock {
            state: State::new(alloc, threads)?,
        })
    }

    /// Does an event and answers true, or answers false if its thread can't take this step now, or if a
    /// number would pass the last one.
    pub fn step(&mut self, event: Event) -> bool
        ensures done { Outcome result (Can self.old event × HasRoom self.old event.act) self.old (after self.old event) self.new }
        ensures remembered { Remembers self.new }
    {
        event.thread < self.state.threads.len() && self.state.step(event.thread, event.act)
    }

    /// A thread.
    pub fn thread(&self, thread: usize) -> Option<Thread>
        ensures there { IsSome result ↔ (thread < length self.now.threads) }
        ensures same { IfSome result (λ one. one ≡ thread_of self.now thread) }
    {
        self.state.threads.get(thread).copied()
    }

    /// Whether the word says that the lock is held.
    pub fn is_held(&self) -> bool
        ensures { result ≡ self.now.is_held }
    {
        self.state.is_held
    }

    /// How many sleep or are about to, and one more for each that is late.
    pub fn waiting(&self) -> u64
        ensures { result ≡ self.now.waiting }
    {
        self.state.waiting
    }
}
