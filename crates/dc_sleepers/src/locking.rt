//! What each step makes of the words of a lock, and of its threads: those of a thread that waits stand here.

ghost use Rattle.std.specs.Prelude.{◌≡◌, ◌<◌, length, IfOk};
ghost use Rattle.dc_sleepers.specs.Locks.{opening};
ghost use Rattle.dc_sleepers.specs.LockSteps.{Does, Goes, Puts};
ghost use Rattle.dc_sleepers.specs.LocksShown.{shown};
ghost use Rattle.dc_sleepers.specs.LockSound.{IsSound};
ghost use Rattle.dc_sleepers.specs.declared.lock.Act.TheVariants.{Come, TryOnce, Try, CountLate, Draw, CountIn, ReadDrawn, ReadServed, Insist, Park, Yield, CountOut};

use crate::lock::{Act, Place, Thread};
use std::alloc::{AllocError, Global};

/// What a lock has.
#[derive(Drop)]
pub(crate) struct State {
    pub is_held: bool,
    pub waiting: u64,
    pub drawn: u64,
    pub served: u64,
    pub threads: Vec<Thread>,
}

const IDLE: Thread = Thread {
    place: Place::Out,
    has_slept: false,
    has_ticket: false,
    ticket: 0,
    limit: 0,
    seen: 0,
};

impl State {
    pub fn new(alloc: Global, threads: usize) -> Result<State, AllocError>
        ensures { IfOk result (λ state. shown state ≡ opening threads) }
    {
        Ok(State {
            is_held: false,
            waiting: 0,
            drawn: 0,
            served: 0,
            threads: vec![in alloc; IDLE; threads]?,
        })
    }

    /// Does a step of a thread, if it can take that now.
    #[tactic(auto, using(crate::proofs::ByAct::by_act))]
    pub fn step(&mut self, thread: usize, act: Act) -> bool
        requires there { thread < length self.old.threads.items }
        requires sound { IsSound (shown self.old) }
        ensures { Does (shown self.old) thread act result (shown self.new) }
    {
        match act {
            Act::Come => self.come(thread),
            Act::TryOnce => self.try_once(thread),
            Act::Try => self.try_lock(thread),
            Act::CountLate => self.count_late(thread),
            Act::Draw => self.draw(thread),
            Act::CountIn => self.count_in(thread),
            Act::ReadDrawn => self.read_drawn(thread),
            Act::ReadServed => self.read_served(thread),
            Act::Insist => self.insist(thread),
            Act::Park => self.park(thread),
            Act::Yield => self.yield_turn(thread),
            Act::WakeUp => self.go(thread, Place::Asleep, Place::Awake),
            Act::WakeKeptUp => self.go(thread, Place::Kept, Place::Awake),
            Act::CountOut => self.count_out(thread),
            Act::CountLateOut => self.count_late_out(thread),
            Act::Serve => self.serve(thread),
            Act::WakeKept => self.wake_kept(thread),
            Act::Give => self.give(thread),
            Act::Read => self.read(thread),
            Act::LookDrawn => self.look_drawn(thread),
            Act::LookServed => self.look_served(thread),
            Act::Wake(sleeper) => self.wake(thread, sleeper),
            Act::WakeNobody => self.wake_nobody(thread),
            Act::WakeAll => self.wake_all(thread),
        }
    }

    /// Puts another in the place of a thread, if it stands there.
    pub fn put(&mut self, thread: usize, from: Place, one: Thread) -> bool
        requires { thread < length self.old.threads.items }
        ensures { Puts (shown self.old) thread from one result (shown self.new) }
    {
        let stands = self.threads[thread].place == from;
        if stands {
            self.threads[thread] = one;
        }
        stands
    }

    /// Takes a thread from one place to another, if it stands there.
    pub fn go(&mut self, thread: usize, from: Place, to: Place) -> bool
        requires { thread < length self.old.threads.items }
        ensures { Goes (shown self.old) thread from to result (shown self.new) }
    {
        let one = self.threads[thread];
        self.put(thread, from, Thread { place: to, ..one })
    }

    fn come(&mut self, thread: usize) -> bool
        requires { thread < length self.old.threads.items }
        ensures { Does (shown self.old) thread Come result (shown self.new) }
    {
        let one = self.threads[thread];
        let fresh = Thread {
            place: Place::Trying,
            has_slept: false,
            ..one
        };
        self.put(thread, Place::Out, fresh)
    }

    fn try_once(&mut self, thread: usize) -> bool
        requires { thread < length self.old.threads.items }
        ensures { Does (shown self.old) thread TryOnce result (shown self.new) }
    {
        if self.is_held {
            return self.go(thread, Place::Out, Place::Out);
        }
        let done = self.go(thread, Place::Out, Place::Holding);
        if done {
            self.is_held = true;
        }
        done
    }

    fn try_lock(&mut self, thread: usize) -> bool
        requires { thread < length self.old.threads.items }
        ensures { Does (shown self.old) thread Try result (shown self.new) }
    {
        if self.is_held {
            return self.go(thread, Place::Trying, Place::Trying);
        }
        let to = if self.threads[thread].has_ticket {
            Place::Got
        } else {
            Place::Holding
        };
        let done = self.go(thread, Place::Trying, to);
        if done {
            self.is_held = true;
        }
        done
    }

    fn count_late(&mut self, thread: usize) -> bool
        requires { thread < length self.old.threads.items }
        ensures { Does (shown self.old) thread CountLate result (shown self.new) }
    {
        let one = self.threads[thread];
        if !one.has_slept || one.has_ticket || self.waiting == u64::MAX {
            return false;
        }
        let done = self.go(thread, Place::Trying, Place::Drawing);
        if done {
            self.waiting += 1;
        }
        done
    }

    fn draw(&mut self, thread: usize) -> bool
        requires { thread < length self.old.threads.items }
        ensures { Does (shown self.old) thread Draw result (shown self.new) }
    {
        if self.drawn == u64::MAX {
            return false;
        }
        let one = self.threads[thread];
        let late = Thread {
            place: Place::Trying,
            has_ticket: true,
            ticket: self.drawn,
            ..one
        };
        let done = self.put(thread, Place::Drawing, late);
        if done {
            self.drawn += 1;
        }
        done
    }

    fn count_in(&mut self, thread: usize) -> bool
        requires { thread < length self.old.threads.items }
        ensures { Does (shown self.old) thread CountIn result (shown self.new) }
    {
        if self.waiting == u64::MAX {
            return false;
        }
        let done = self.go(thread, Place::Trying, Place::Counted);
        if done {
            self.waiting += 1;
        }
        done
    }

    fn read_drawn(&mut self, thread: usize) -> bool
        requires { thread < length self.old.threads.items }
        ensures { Does (shown self.old) thread ReadDrawn result (shown self.new) }
    {
        let one = self.threads[thread];
        let limit = if one.has_ticket {
            one.ticket
        } else {
            self.drawn
        };
        let read = Thread {
            place: Place::Choosing,
            limit,
            ..one
        };
        self.put(thread, Place::Counted, read)
    }

    fn read_served(&mut self, thread: usize) -> bool
        requires { thread < length self.old.threads.items }
        ensures { Does (shown self.old) thread ReadServed result (shown self.new) }
    {
        let one = self.threads[thread];
        let to = if self.served < one.limit {
            Place::Yielding
        } else {
            Place::Parking
        };
        let read = Thread {
            place: to,
            seen: self.served,
            ..one
        };
        self.put(thread, Place::Choosing, read)
    }

    fn insist(&mut self, thread: usize) -> bool
        requires { thread < length self.old.threads.items }
        ensures { Does (shown self.old) thread Insist result (shown self.new) }
    {
        self.threads[thread].has_slept && self.go(thread, Place::Choosing, Place::Parking)
    }

    fn park(&mut self, thread: usize) -> bool
        requires { thread < length self.old.threads.items }
        ensures { Does (shown self.old) thread Park result (shown self.new) }
    {
        let to = if self.is_held {
            Place::Asleep
        } else {
            Place::Awake
        };
        self.go(thread, Place::Parking, to)
    }

    fn yield_turn(&mut self, thread: usize) -> bool
        requires { thread < length self.old.threads.items }
        ensures { Does (shown self.old) thread Yield result (shown self.new) }
    {
        let same = self.threads[thread].seen == self.served;
        let to = if same { Place::Kept } else { Place::Awake };
        self.go(thread, Place::Yielding, to)
    }

    fn count_out(&mut self, thread: usize) -> bool
        requires there { thread < length self.old.threads.items }
        requires sound { IsSound (shown self.old) }
        ensures { Does (shown self.old) thread CountOut result (shown self.new) }
    {
        let one = self.threads[thread];
        let slept = Thread {
            place: Place::Trying,
            has_slept: true,
            ..one
        };
        let done = self.put(thread, Place::Awake, slept);
        if done {
            self.waiting -= 1;
        }
        done
    }
}
