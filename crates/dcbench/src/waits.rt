//! How long calls wait beside threads that hold the lock for long.
//!
//! Each of these lists a large directory again and again. Beside them one thread makes and unlinks a file,
//! and another looks up names that no row has; both rest after each call, so that the lock is free to
//! whoever wants it.

ghost use Rattle.dc_cache.specs.Passes.{Fits};

use crate::gate::Gate;
use crate::look::change_next;
use crate::own::Own;
use crate::tally::Tally;
use crate::work::Work;
use dc_cache::{Dcache, Follow, Pass, ROOT};
use std::alloc::Global;
use std::rt::Clock;
use std::sync::Wait;
use std::sync::atomic::{AtomicU64, Ordering};
use std::thread::sleep;
use std::time::{Duration, Instant};

/// The directory that is listed.
pub const LONG: &[u8] = b"/long";

/// The thread that makes changes. The next one looks up, and all others hold the lock.
const CHANGER: u64 = 0;

/// How many threads make calls that are timed.
pub const CALLERS: u64 = 2;

/// How many microseconds a thread rests after a call.
const REST: u64 = 200;

/// What all threads of a run share.
#[derive(Clone, Copy)]
pub struct Waits<'a> {
    pub alloc: Global,
    pub time: Duration,
    /// How many holds have ended.
    pub holds: &'a AtomicU64,
    pub gate: &'a Gate,
}

/// When a call began, and how many holds had ended by then.
#[derive(Clone, Copy)]
struct Began {
    at: Instant,
    holds: u64,
}

impl<'a> Waits<'a> {
    fn began<R: Clock>(&self, rt: &R) -> Option<Began> {
        Some(Began {
            at: Instant::now(rt).ok()?,
            holds: self.holds.load(Ordering::SeqCst),
        })
    }

    /// Keeps how long a call took, and rests. None if the clock can't be read.
    fn ended<R: Clock>(&self, rt: &R, began: Began, tally: &mut Tally) -> Option<()> {
        let passed = self.holds.load(Ordering::SeqCst);
        tally.turn(began.at.elapsed(rt).ok()?, 1);
        tally.passed = tally.passed.max(passed.saturating_sub(began.holds));
        sleep(rt, Duration::from_micros(REST));
        Some(())
    }

    /// Holds the lock once.
    fn hold<R: Wait>(&self, rt: &R, cache: &Dcache, pass: &mut Pass)
        requires { Fits cache.now pass.old }
        ensures { Fits cache.now pass.new }
    {
        let _ = cache.list(rt, self.alloc, pass, ROOT, LONG);
        self.holds.fetch_add(1, Ordering::SeqCst);
    }

    /// Looks up a name that was never asked for.
    fn miss<R: Wait>(&self, rt: &R, cache: &Dcache, pass: &mut Pass, path: &str, tally: &mut Tally)
        requires { Fits cache.now pass.old }
        ensures { Fits cache.now pass.new }
    {
        let _ = cache.resolve(rt, self.alloc, pass, ROOT, path.as_bytes(), Follow::Yes);
        tally.looks = tally.looks.saturating_add(1);
    }

    /// A thread's call of this number. None if the clock can't be read, or there is no memory.
    fn call<R: Wait + Clock>(
        &self,
        rt: &R,
        cache: &Dcache,
        pass: &mut Pass,
        thread: u64,
        number: u64,
        own: &mut Own,
        tally: &mut Tally,
    ) -> Option<()>
        requires { Fits cache.now pass.old }
        ensures { Fits cache.now pass.new }
    {
        if thread >= CALLERS {
            self.hold(rt, cache, pass);
            return Some(());
        }
        let path = format!(in self.alloc; "/never{number}").ok()?;
        let began = self.began(rt)?;
        match thread {
            CHANGER => change_next(rt, self.alloc, cache, pass, own, tally),
            _ => self.miss(rt, cache, pass, &path, tally),
        }
        self.ended(rt, began, tally)
    }

    /// Calls until the time is over. None if the clock can't be read, or there is no memory.
    fn call_on<R: Wait + Clock>(
        &self,
        rt: &R,
        cache: &Dcache,
        pass: &mut Pass,
        thread: u64,
        own: &mut Own,
        tally: &mut Tally,
    ) -> Option<()>
        requires { Fits cache.now pass.old }
        ensures { Fits cache.now pass.new }
    {
        let begin = self.gate.pass(rt)?;
        'calls: for number in 0..u64::MAX {
            self.call(rt, cache, pass, thread, number, own, tally)?;
            if begin.elapsed(rt).ok()? >= self.time {
                break;
            }
        }
        Some(())
    }

    /// What a thread does.
    pub fn run<R: Wait + Clock>(
        &self,
        rt: &R,
        cache: &Dcache,
        pass: &mut Pass,
        thread: u64,
    ) -> Tally
        requires { Fits cache.now pass.old }
        ensures { Fits cache.now pass.new }
    {
        let mut tally = Tally::new(self.alloc);
        if let Ok(mut own) = Own::new(self.alloc, Work::Change, &[], thread, CALLERS) {
            let _ = self.call_on(rt, cache, pass, thread, &mut own, &mut tally);
        }
        tally
    }
}
