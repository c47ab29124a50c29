//! The steps of a thread that has the lock, or gave it back.

ghost use Rattle.std.specs.Prelude.{◌≡◌, ◌<◌, length};
ghost use Rattle.dc_sleepers.specs.Locks.{is_asleep, is_kept, roused, roused_all};
ghost use Rattle.dc_sleepers.specs.LockSteps.{Does};
ghost use Rattle.dc_sleepers.specs.LocksShown.{shown};
ghost use Rattle.dc_sleepers.specs.LockSound.{IsSound};
ghost use Rattle.dc_sleepers.specs.declared.lock.Act.TheVariants.{CountLateOut, Serve, WakeKept, Give, Read, LookDrawn, LookServed, Wake, WakeNobody, WakeAll};

use crate::lock::{Place, Thread};
use crate::locking::State;

/// A thread, woken if it sleeps until the lock is free.
fn woken(one: Thread) -> Thread
    ensures { result ≡ roused is_asleep one }
{
    if one.place == Place::Asleep {
        Thread {
            place: Place::Awake,
            ..one
        }
    } else {
        one
    }
}

/// A thread, woken if it sleeps until one more ticket is served.
fn passed(one: Thread) -> Thread
    ensures { result ≡ roused is_kept one }
{
    if one.place == Place::Kept {
        Thread {
            place: Place::Awake,
            ..one
        }
    } else {
        one
    }
}

impl State {
    pub fn count_late_out(&mut self, thread: usize) -> bool
        requires there { thread < length self.old.threads.items }
        requires sound { IsSound (shown self.old) }
        ensures { Does (shown self.old) thread CountLateOut result (shown self.new) }
    {
        let done = self.go(thread, Place::Got, Place::Serving);
        if done {
            self.waiting -= 1;
        }
        done
    }

    pub fn serve(&mut self, thread: usize) -> bool
        requires there { thread < length self.old.threads.items }
        requires sound { IsSound (shown self.old) }
        ensures { Does (shown self.old) thread Serve result (shown self.new) }
    {
        let one = self.threads[thread];
        let served = Thread {
            place: Place::Served,
            has_ticket: false,
            ..one
        };
        let done = self.put(thread, Place::Serving, served);
        if done {
            self.served += 1;
        }
        done
    }

    pub fn wake_kept(&mut self, thread: usize) -> bool
        requires { thread < length self.old.threads.items }
        ensures { Does (shown self.old) thread WakeKept result (shown self.new) }
    {
        let done = self.go(thread, Place::Served, Place::Holding);
        if done {
            self.pass_on();
        }
        done
    }

    pub fn give(&mut self, thread: usize) -> bool
        requires { thread < length self.old.threads.items }
        ensures { Does (shown self.old) thread Give result (shown self.new) }
    {
        let done = self.go(thread, Place::Holding, Place::Freed);
        if done {
            self.is_held = false;
        }
        done
    }

    pub fn read(&mut self, thread: usize) -> bool
        requires { thread < length self.old.threads.items }
        ensures { Does (shown self.old) thread Read result (shown self.new) }
    {
        let to = if self.waiting > 0 {
            Place::Looking
        } else {
            Place::Out
        };
        self.go(thread, Place::Freed, to)
    }

    pub fn look_drawn(&mut self, thread: usize) -> bool
        requires { thread < length self.old.threads.items }
        ensures { Does (shown self.old) thread LookDrawn result (shown self.new) }
    {
        let one = self.threads[thread];
        let read = Thread {
            place: Place::Looked,
            limit: self.drawn,
            ..one
        };
        self.put(thread, Place::Looking, read)
    }

    pub fn look_served(&mut self, thread: usize) -> bool
        requires { thread < length self.old.threads.items }
        ensures { Does (shown self.old) thread LookServed result (shown self.new) }
    {
        let none_is_out = self.threads[thread].limit == self.served;
        let to = if none_is_out {
            Place::WakingOne
        } else {
            Place::WakingAll
        };
        self.go(thread, Place::Looked, to)
    }

    pub fn wake(&mut self, thread: usize, sleeper: usize) -> bool
        requires { thread < length self.old.threads.items }
        ensures { Does (shown self.old) thread (Wake sleeper) result (shown self.new) }
    {
        if sleeper >= self.threads.len() || self.threads[sleeper].place != Place::Asleep {
            return false;
        }
        let done = self.go(thread, Place::WakingOne, Place::Out);
        if done {
            self.threads[sleeper].place = Place::Awake;
        }
        done
    }

    pub fn wake_nobody(&mut self, thread: usize) -> bool
        requires { thread < length self.old.threads.items }
        ensures { Does (shown self.old) thread WakeNobody result (shown self.new) }
    {
        let mut threads = self.threads.iter();
        if threads.any(|one| one.place == Place::Asleep) {
            return false;
        }
        self.go(thread, Place::WakingOne, Place::Out)
    }

    pub fn wake_all(&mut self, thread: usize) -> bool
        requires { thread < length self.old.threads.items }
        ensures { Does (shown self.old) thread WakeAll result (shown self.new) }
    {
        let done = self.go(thread, Place::WakingAll, Place::Out);
        if done {
            self.rouse();
        }
        done
    }

    /// Wakes all that sleep until the lock is free.
    fn rouse(&mut self)
        ensures { shown self.new ≡ roused_all is_asleep (shown self.old) }
    {
        for one in self.threads.iter_mut() {
            *one = woken(*one);
        }
    }

    /// Wakes all that sleep until one more ticket is served.
    fn pass_on(&mut self)
        ensures { shown self.new ≡ roused_all is_kept (shown self.old) }
    {
        for one in self.threads.iter_mut() {
            *one = passed(*one);
        }
    }
}
