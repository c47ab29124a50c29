//! What each step makes of the words of a gate, and of its threads.

ghost use Rattle.std.specs.Prelude.{◌≡◌, ◌<◌, length, IfOk};
ghost use Rattle.dc_sleepers.specs.Gates.{opening, sleeps_behind, roused, roused_all};
ghost use Rattle.dc_sleepers.specs.GateSteps.{Does, Goes, Puts};
ghost use Rattle.dc_sleepers.specs.GatesShown.{shown};
ghost use Rattle.dc_sleepers.specs.GateSound.{IsSound};
ghost use Rattle.dc_sleepers.specs.declared.gate.Act.TheVariants.{ReadServed, ReadTickets, Try, Leave, Count, TakeTicket, ReadCalls, Wait, Give, CountOut, Serve, ReadSleepers, Raise, LookServed, LookTickets, Wake, WakeNobody, WakeAll};

use crate::gate::{Act, Place, Thread, WRAP};
use std::alloc::{AllocError, Global};

/// What a gate has.
#[derive(Drop)]
pub(crate) struct State {
    pub is_held: bool,
    pub sleepers: u64,
    pub calls: u64,
    pub tickets: u64,
    pub served: u64,
    pub threads: Vec<Thread>,
}

const IDLE: Thread = Thread {
    place: Place::Out,
    is_counted: false,
    seen: 0,
    has_ticket: false,
    ticket: 0,
    next: 0,
};

/// Whether a thread sleeps, and has read another number of calls.
fn sleeps_behind(calls: u64, thread: &Thread) -> bool
    ensures { result ≡ sleeps_behind calls thread.now }
{
    thread.place == Place::Asleep && thread.seen != calls
}

/// A thread, woken if it sleeps and has read another number of calls.
fn roused(calls: u64, one: Thread) -> Thread
    ensures { result ≡ roused calls one }
{
    if sleeps_behind(calls, &one) {
        Thread {
            place: Place::Counted,
            ..one
        }
    } else {
        one
    }
}

impl State {
    pub fn new(alloc: Global, threads: usize) -> Result<State, AllocError>
        ensures { IfOk result (λ state. shown state ≡ opening threads) }
    {
        Ok(State {
            is_held: false,
            sleepers: 0,
            calls: 0,
            tickets: 0,
            served: 0,
            threads: vec![in alloc; IDLE; threads]?,
        })
    }

    /// Does a step of a thread, if it can take that now.
    #[tactic(auto, using(crate::proofs::ByAct::gate_by_act))]
    pub fn step(&mut self, thread: usize, act: Act) -> bool
        requires there { thread < length self.old.threads.items }
        requires sound { IsSound (shown self.old) }
        ensures { Does (shown self.old) thread act result (shown self.new) }
    {
        match act {
            Act::Come => self.go(thread, Place::Out, Place::Asking),
            Act::ComeBare => self.go(thread, Place::Out, Place::Trying),
            Act::ReadServed => self.read_served(thread),
            Act::ReadTickets => self.read_tickets(thread),
            Act::Try => self.try_lock(thread),
            Act::Answer => self.go(thread, Place::Trying, Place::Given),
            Act::AskAgain => self.go(thread, Place::Told, Place::Asking),
            Act::Leave => self.leave(thread),
            Act::Count => self.count(thread),
            Act::TakeTicket => self.take_ticket(thread),
            Act::ReadCalls => self.read_calls(thread),
            Act::Wait => self.wait(thread),
            Act::WakeUp => self.go(thread, Place::Asleep, Place::Counted),
            Act::Give => self.give(thread),
            Act::CountOut => self.count_out(thread),
            Act::Serve => self.serve(thread),
            Act::ReadSleepers => self.read_sleepers(thread),
            Act::Raise => self.raise(thread),
            Act::LookServed => self.look_served(thread),
            Act::LookTickets => self.look_tickets(thread),
            Act::Wake(sleeper) => self.wake(thread, sleeper),
            Act::WakeNobody => self.wake_nobody(thread),
            Act::WakeAll => self.wake_all(thread),
        }
    }

    /// Puts another in the place of a thread, if it stands there.
    fn put(&mut self, thread: usize, from: Place, one: Thread) -> bool
        requires { thread < length self.old.threads.items }
        ensures { Puts (shown self.old) thread from one result (shown self.new) }
    {
        let stands = self.threads[thread].place == from;
        if stands {
            self.threads[thread] = one;
        }
        stands
    }

    /// Takes a thread from one place to another, if it stands there.
    fn go(&mut self, thread: usize, from: Place, to: Place) -> bool
        requires { thread < length self.old.threads.items }
        ensures { Goes (shown self.old) thread from to result (shown self.new) }
    {
        let one = self.threads[thread];
        self.put(thread, from, Thread { place: to, ..one })
    }

    fn read_served(&mut self, thread: usize) -> bool
        requires { thread < length self.old.threads.items }
        ensures { Does (shown self.old) thread ReadServed result (shown self.new) }
    {
        let one = self.threads[thread];
        let read = Thread {
            place: Place::Asked,
            next: self.served,
            ..one
        };
        self.put(thread, Place::Asking, read)
    }

    fn read_tickets(&mut self, thread: usize) -> bool
        requires { thread < length self.old.threads.items }
        ensures { Does (shown self.old) thread ReadTickets result (shown self.new) }
    {
        let one = self.threads[thread];
        let may = self.tickets == one.next || one.has_ticket && one.ticket == one.next;
        let to = if may { Place::Trying } else { Place::Told };
        self.go(thread, Place::Asked, to)
    }

    fn try_lock(&mut self, thread: usize) -> bool
        requires { thread < length self.old.threads.items }
        ensures { Does (shown self.old) thread Try result (shown self.new) }
    {
        if self.is_held {
            return self.go(thread, Place::Trying, Place::Told);
        }
        let done = self.go(thread, Place::Trying, Place::Holding);
        if done {
            self.is_held = true;
        }
        done
    }

    fn leave(&mut self, thread: usize) -> bool
        requires { thread < length self.old.threads.items }
        ensures { Does (shown self.old) thread Leave result (shown self.new) }
    {
        !self.threads[thread].is_counted && self.go(thread, Place::Told, Place::Out)
    }

    fn count(&mut self, thread: usize) -> bool
        requires there { thread < length self.old.threads.items }
        requires sound { IsSound (shown self.old) }
        ensures { Does (shown self.old) thread Count result (shown self.new) }
    {
        let one = self.threads[thread];
        let counted = Thread {
            place: Place::Counted,
            is_counted: true,
            ..one
        };
        let done = self.put(thread, Place::Told, counted);
        if done && !one.is_counted {
            self.sleepers += 1;
        }
        done
    }

    fn take_ticket(&mut self, thread: usize) -> bool
        requires { thread < length self.old.threads.items }
        ensures { Does (shown self.old) thread TakeTicket result (shown self.new) }
    {
        let one = self.threads[thread];
        if !one.is_counted || one.has_ticket || self.tickets == u64::MAX {
            return false;
        }
        let ticketed = Thread {
            place: Place::Counted,
            has_ticket: true,
            ticket: self.tickets,
            ..one
        };
        let done = self.put(thread, Place::Counted, ticketed);
        if done {
            self.tickets += 1;
        }
        done
    }

    fn read_calls(&mut self, thread: usize) -> bool
        requires { thread < length self.old.threads.items }
        ensures { Does (shown self.old) thread ReadCalls result (shown self.new) }
    {
        let one = self.threads[thread];
        let read = Thread {
            place: Place::Asking,
            seen: self.calls,
            ..one
        };
        self.put(thread, Place::Counted, read)
    }

    fn wait(&mut self, thread: usize) -> bool
        requires there { thread < length self.old.threads.items }
        requires sound { IsSound (shown self.old) }
        ensures { Does (shown self.old) thread Wait result (shown self.new) }
    {
        let one = self.threads[thread];
        if !one.is_counted || self.calls - one.seen >= WRAP {
            return false;
        }
        let same = self.calls % WRAP == one.seen % WRAP;
        let to = if same { Place::Asleep } else { Place::Counted };
        self.go(thread, Place::Told, to)
    }

    fn give(&mut self, thread: usize) -> bool
        requires { thread < length self.old.threads.items }
        ensures { Does (shown self.old) thread Give result (shown self.new) }
    {
        let done = self.go(thread, Place::Holding, Place::Given);
        if done {
            self.is_held = false;
        }
        done
    }

    fn count_out(&mut self, thread: usize) -> bool
        requires there { thread < length self.old.threads.items }
        requires sound { IsSound (shown self.old) }
        ensures { Does (shown self.old) thread CountOut result (shown self.new) }
    {
        let one = self.threads[thread];
        let uncounted = Thread {
            place: Place::Leaving,
            is_counted: false,
            ..one
        };
        let done = self.put(thread, Place::Given, uncounted);
        if done && one.is_counted {
            self.sleepers -= 1;
        }
        done
    }

    fn serve(&mut self, thread: usize) -> bool
        requires there { thread < length self.old.threads.items }
        requires sound { IsSound (shown self.old) }
        ensures { Does (shown self.old) thread Serve result (shown self.new) }
    {
        let one = self.threads[thread];
        let gone = Thread {
            place: Place::Gone,
            has_ticket: false,
            ..one
        };
        let done = self.put(thread, Place::Leaving, gone);
        if done && one.has_ticket {
            self.served += 1;
        }
        done
    }

    fn read_sleepers(&mut self, thread: usize) -> bool
        requires { thread < length self.old.threads.items }
        ensures { Does (shown self.old) thread ReadSleepers result (shown self.new) }
    {
        let to = if self.sleepers > 0 {
            Place::Calling
        } else {
            Place::Out
        };
        self.go(thread, Place::Gone, to)
    }

    fn raise(&mut self, thread: usize) -> bool
        requires { thread < length self.old.threads.items }
        ensures { Does (shown self.old) thread Raise result (shown self.new) }
    {
        if self.calls == u64::MAX {
            return false;
        }
        let done = self.go(thread, Place::Calling, Place::Raised);
        if done {
            self.calls += 1;
        }
        done
    }

    fn look_served(&mut self, thread: usize) -> bool
        requires { thread < length self.old.threads.items }
        ensures { Does (shown self.old) thread LookServed result (shown self.new) }
    {
        let one = self.threads[thread];
        let read = Thread {
            place: Place::Looked,
            next: self.served,
            ..one
        };
        self.put(thread, Place::Raised, read)
    }

    fn look_tickets(&mut self, thread: usize) -> bool
        requires { thread < length self.old.threads.items }
        ensures { Does (shown self.old) thread LookTickets result (shown self.new) }
    {
        let none_is_out = self.tickets == self.threads[thread].next;
        let to = if none_is_out {
            Place::WakingOne
        } else {
            Place::WakingAll
        };
        self.go(thread, Place::Looked, to)
    }

    fn wake(&mut self, thread: usize, sleeper: usize) -> bool
        requires { thread < length self.old.threads.items }
        ensures { Does (shown self.old) thread (Wake sleeper) result (shown self.new) }
    {
        if sleeper >= self.threads.len() || self.threads[sleeper].place != Place::Asleep {
            return false;
        }
        let done = self.go(thread, Place::WakingOne, Place::Out);
        if done {
            self.threads[sleeper].place = Place::Counted;
        }
        done
    }

    fn wake_nobody(&mut self, thread: usize) -> bool
        requires { thread < length self.old.threads.items }
        ensures { Does (shown self.old) thread WakeNobody result (shown self.new) }
    {
        let calls = self.calls;
        if self.threads.iter().any(|one| sleeps_behind(calls, one)) {
            return false;
        }
        self.go(thread, Place::WakingOne, Place::Out)
    }

    fn wake_all(&mut self, thread: usize) -> bool
        requires { thread < length self.old.threads.items }
        ensures { Does (shown self.old) thread WakeAll result (shown self.new) }
    {
        let done = self.go(thread, Place::WakingAll, Place::Out);
        if done {
            self.rouse();
        }
        done
    }

    /// Wakes all that sleep and have read another number of calls.
    fn rouse(&mut self)
        ensures { shown self.new ≡ roused_all (shown self.old) }
    {
        let calls = self.calls;
        for one in self.threads.iter_mut() {
            *one = roused(calls, *one);
        }
    }
}
