//! The gate of `gigbewu.h`, at which threads sleep that no runtime puts to sleep: words beside the lock of a
//! cache, and what a thread has read of them.
//!
//! A thread that waits counts itself among the sleepers, then reads how many calls there were, then tries or
//! asks whether it may, and falls asleep only if there were no more calls. One whose call is over counts
//! itself out, then reads how many sleepers there are, and if there is one raises the calls and wakes it.
//! While a ticket is out only the thread that has the next one may try, and a call wakes all.

ghost use Rattle.std.specs.Prelude.{◌≡◌, ◌↔◌, ◌<◌, length, IfOk, IsSome, IfSome};
ghost use Rattle.dc_sleepers.specs.Gates.{opening, after, thread_of, Can};
ghost use Rattle.dc_sleepers.specs.GateSteps.{Fits};
ghost use Rattle.dc_sleepers.specs.GateLaw.{Remembers};
ghost use Rattle.dc_sleepers.specs.Outcomes.{Outcome};

use crate::passing::State;
use std::alloc::{AllocError, Global};
use std::marker::Model;

/// The calls are told apart modulo this.
pub const WRAP: u64 = 1 << 32;

/// Where a thread stands between two steps.
#[derive(Clone, Copy, PartialEq, Eq)]
pub enum Place {
    /// It makes no call.
    Out,
    /// It asks whether it may try: its read of the tickets served is still before it.
    Asking,
    /// Its read of the tickets taken is still before it.
    Asked,
    /// It may try, and its try is still before it.
    Trying,
    /// It may not try, or its try was refused.
    Told,
    /// It is counted, and its read of the calls is still before it.
    Counted,
    /// It sleeps, and is counted.
    Asleep,
    /// It has the lock.
    Holding,
    /// Its call is over, and it has given the lock back. If it is counted, it counts itself out next.
    Given,
    /// If it has a ticket, that is served next.
    Leaving,
    /// Its read of the sleepers is still before it.
    Gone,
    /// It has read that there are some, and raises the calls next.
    Calling,
    /// It looks whether a ticket is out: its read of the tickets served is still before it.
    Raised,
    /// Its read of the tickets taken is still before it.
    Looked,
    /// It wakes one next.
    WakingOne,
    /// It wakes all next.
    WakingAll,
}

/// A step of a thread.
#[derive(Clone, Copy)]
pub enum Act {
    /// It begins a blocking call.
    Come,
    /// It begins a bare call, which doesn't ask whether it may try.
    ComeBare,
    /// It reads how many tickets were served.
    ReadServed,
    /// It reads how many were taken: it may try if none is out, or if its own is next.
    ReadTickets,
    /// It tries: it gets the lock if that is free.
    Try,
    /// Its call is answered, and needs no lock.
    Answer,
    /// After a while it asks again.
    AskAgain,
    /// A bare call is over, as its try was refused.
    Leave,
    /// It counts itself among the sleepers, unless it is counted.
    Count,
    /// It takes a ticket.
    TakeTicket,
    /// It reads how many calls there were.
    ReadCalls,
    /// In one step it compares the calls with what it read, and falls asleep if they are the same.
    Wait,
    /// It wakes up for no reason.
    WakeUp,
    /// It gives the lock back, and its call is over.
    Give,
    /// It counts itself out, if it is counted.
    CountOut,
    /// Its ticket is served, if it has one.
    Serve,
    /// It reads how many sleepers there are, and if there is one goes on to call.
    ReadSleepers,
    /// It raises the calls.
    Raise,
    /// It reads how many tickets were served.
    LookServed,
    /// It reads how many were taken: it wakes all if one is out, else one.
    LookTickets,
    /// It wakes this thread, any one that sleeps.
    Wake(usize),
    /// It wakes nobody, as there is nobody who sleeps and has read another number of calls.
    WakeNobody,
    /// It wakes all that sleep and have read another number of calls.
    WakeAll,
}

/// Who takes which step.
#[derive(Clone, Copy)]
pub struct Event {
    /// Which thread, from 0 on.
    pub thread: usize,
    /// What it does.
    pub act: Act,
}

/// A thread, and what it has read.
#[derive(Clone, Copy)]
pub struct Thread {
    pub place: Place,
    /// Whether it is counted among the sleepers.
    pub is_counted: bool,
    /// How many calls there were when it read them last.
    pub seen: u64,
    /// Whether it has a ticket.
    pub has_ticket: bool,
    /// The ticket that it has or had, counted from 0 on.
    pub ticket: u64,
    /// How many tickets were served when it read that last: the ticket that was next.
    pub next: u64,
}

/// A gate with its threads, and the lock for which they wait.
#[derive(Drop)]
pub struct Gate {
    state: State,
}

impl Model for Gate {
    ghost use Rattle.dc_sleepers.specs.Gates.{State};

    ghost Value = { State };

    ghost use Rattle.dc_sleepers.specs.GatesShown.{state_in, IsKept};

    ghost view = { state_in };

    ghost invariant = { IsKept };
}

impl Gate {
    /// A free lock, nobody who sleeps, and threads that make no call.
    pub fn new(alloc: Global, threads: usize) -> Result<Gate, AllocError>
        ensures { IfOk result (λ gate. gate ≡ opening threads) }
    {
        Ok(Gate {
            state: State::new(alloc, threads)?,
        })
    }

    /// Does an event and answers true, or answers false if its thread can't take this step now, or if that
    /// is one of those that don't fit: a wait that comes `WRAP` calls after the read, or a number past the
    /// last one.
    pub fn step(&mut self, event: Event) -> bool
        ensures done { Outcome result (Can self.old event × Fits self.old event) self.old (after self.old event) self.new }
        ensures remembered { Remembers self.new }
    {
        event.thread < self.state.threads.len() && self.state.step(event.thread, event.act)
    }

    /// A thread.
    pub fn thread(&self, thread: usize) -> Option<Thread>
        ensures there { IsSome result ↔ (thread < length self.now.threads) }
        ensures same { IfSome result (λ one. one ≡ thread_of self.now thread) }
    {
        self.state.threads.get(thread).copied()
    }

    /// How many threads are counted among the sleepers.
    pub fn sleepers(&self) -> u64
        ensures { result ≡ self.now.sleepers }
    {
        self.state.sleepers
    }
}
