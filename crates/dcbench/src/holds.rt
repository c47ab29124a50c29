//! How long calls hold the lock, and how long they wait for it.
//!
//! A thread makes calls of one kind. It tries each once: if that gets the lock, the time of the try is that
//! of the hold, and of what comes before it, which is little: the path of a change has one name, or its
//! directory is found by rows, and a try on a held lock watches that for a few microseconds. If another thread
//! has the lock then, it makes the call that waits, and the time from the try on is that of the wait and the
//! hold.

ghost use Rattle.dc_cache.specs.Passes.{Fits, IsChange};

use crate::gate::Gate;
use crate::own::Own;
use crate::tally::{Tally, a_second};
use crate::tree::change;
use crate::work::{Taker, Work};
use dc_cache::{Call, Dcache, Follow, Pass, ROOT, Reply};
use std::alloc::Global;
use std::rt::Clock;
use std::sync::Wait;
use std::time::{Duration, Instant};

/// The directory in which names are looked up and renamed, and which is listed.
pub const FOLDER: &str = "/a/b/c";

/// What all threads of a run share.
#[derive(Clone, Copy)]
pub struct Holds<'a> {
    pub alloc: Global,
    pub taker: Taker,
    /// The files that are renamed.
    pub files: &'a [&'a [u8]],
    pub threads: u64,
    pub time: Duration,
    pub gate: &'a Gate,
}

impl<'a> Holds<'a> {
    /// Tries a call that changes nothing, and says whether it got the lock.
    fn tries(&self, cache: &Dcache, pass: &mut Pass, path: &[u8]) -> bool
        requires { Fits cache.now pass.old }
        ensures { Fits cache.now pass.new }
    {
        let alloc = self.alloc;
        match self.taker {
            Taker::Miss => cache
                .try_look(alloc, pass, ROOT, path, Follow::Yes)
                .is_some(),
            Taker::Stat => cache.try_stat(pass, ROOT, path).is_some(),
            Taker::List => cache.try_list(alloc, pass, ROOT, path).is_some(),
            _ => cache.try_shrink(pass, 0).is_some(),
        }
    }

    /// Makes the same call, and waits for the lock.
    fn waits<R: Wait>(&self, rt: &R, cache: &Dcache, pass: &mut Pass, path: &[u8])
        requires { Fits cache.now pass.old }
        ensures { Fits cache.now pass.new }
    {
        let alloc = self.alloc;
        match self.taker {
            Taker::Miss => {
                let _ = cache.resolve(rt, alloc, pass, ROOT, path, Follow::Yes);
            }
            Taker::Stat => {
                let _ = cache.stat(rt, pass, ROOT, path);
            }
            Taker::List => {
                let _ = cache.list(rt, alloc, pass, ROOT, path);
            }
            _ => {
                let _ = cache.shrink(rt, pass, 0);
            }
        }
    }

    /// Tries a change once, and says whether the tree took it. None if another thread has the lock.
    fn tries_change(&self, cache: &Dcache, pass: &mut Pass, call: &Call<'_>) -> Option<bool>
        requires pass { Fits cache.now pass.old }
        requires change { IsChange call.now }
        ensures { Fits cache.now pass.new }
    {
        match cache.try_change(self.alloc, pass, call)? {
            Ok(made) => Some(!matches!(made.reply, Reply::Refused(_))),
            Err(_) => Some(false),
        }
    }

    /// Times a call that changes nothing. None if the clock can't be read.
    fn read<R: Wait + Clock>(
        &self,
        rt: &R,
        cache: &Dcache,
        pass: &mut Pass,
        path: &[u8],
        tally: &mut Tally,
    ) -> Option<()>
        requires { Fits cache.now pass.old }
        ensures { Fits cache.now pass.new }
    {
        tally.looks = tally.looks.saturating_add(1);
        let begin = Instant::now(rt).ok()?;
        if self.tries(cache, pass, path) {
            tally.turn(begin.elapsed(rt).ok()?, 1);
        } else {
            self.waits(rt, cache, pass, path);
            tally.wait(begin.elapsed(rt).ok()?);
        }
        Some(())
    }

    /// Makes a change, and times it if it is of the kind that is asked for. None if the clock can't be read.
    fn change<R: Wait + Clock>(
        &self,
        rt: &R,
        cache: &Dcache,
        pass: &mut Pass,
        call: &Call<'_>,
        is_timed: bool,
        tally: &mut Tally,
    ) -> Option<()>
        requires pass { Fits cache.now pass.old }
        requires change { IsChange call.now }
        ensures { Fits cache.now pass.new }
    {
        let begin = Instant::now(rt).ok()?;
        let tried = self.tries_change(cache, pass, call);
        let took = begin.elapsed(rt).ok()?;
        match tried {
            Some(is_made) => {
                tally.changes = tally.changes.saturating_add(1);
                tally.wrong = tally.wrong.saturating_add(u64::from(!is_made));
                if is_timed {
                    tally.turn(took, 1);
                }
            }
            None => {
                change(rt, self.alloc, cache, pass, call, tally);
                if is_timed {
                    tally.wait(begin.elapsed(rt).ok()?);
                }
            }
        }
        Some(())
    }

    /// A thread's call of this number. None if the clock can't be read, or there is no memory.
    fn call<R: Wait + Clock>(
        &self,
        rt: &R,
        cache: &Dcache,
        pass: &mut Pass,
        path: &[u8],
        own: &mut Own,
        tally: &mut Tally,
    ) -> Option<()>
        requires { Fits cache.now pass.old }
        ensures { Fits cache.now pass.new }
    {
        if self.taker.changes().is_none() {
            return self.read(rt, cache, pass, path, tally);
        }
        let is_timed = self.taker.is_it(own.is_first());
        let call = own.next()?;
        self.change(rt, cache, pass, &call, is_timed, tally)?;
        own.step();
        Some(())
    }

    /// The path of a thread's call of this number.
    fn path(&self, thread: u64, number: u64) -> Option<String> {
        match self.taker {
            Taker::Miss => format!(in self.alloc; "{FOLDER}/{thread}.{number}").ok(),
            _ => format!(in self.alloc; "{FOLDER}").ok(),
        }
    }

    /// Calls until the time is over. None if the clock can't be read, or there is no memory.
    fn call_on<R: Wait + Clock>(
        &self,
        rt: &R,
        cache: &Dcache,
        pass: &mut Pass,
        thread: u64,
        own: &mut Own,
        tally: &mut Tally,
    ) -> Option<()>
        requires { Fits cache.now pass.old }
        ensures { Fits cache.now pass.new }
    {
        let begin = self.gate.pass(rt)?;
        'calls: for number in 0..u64::MAX {
            let path = self.path(thread, number)?;
            self.call(rt, cache, pass, path.as_bytes(), own, tally)?;
            if begin.elapsed(rt).ok()? >= self.time {
                break;
            }
        }
        tally.rate = a_second(tally.calls(), begin.elapsed(rt).ok()?);
        Some(())
    }

    /// What a thread does.
    pub fn run<R: Wait + Clock>(
        &self,
        rt: &R,
        cache: &Dcache,
        pass: &mut Pass,
        thread: u64,
    ) -> Tally
        requires { Fits cache.now pass.old }
        ensures { Fits cache.now pass.new }
    {
        let mut tally = Tally::new(self.alloc);
        let work = self.taker.changes().unwrap_or(Work::Change);
        if let Ok(mut own) = Own::new(self.alloc, work, self.files, thread, self.threads) {
            let _ = self.call_on(rt, cache, pass, thread, &mut own, &mut tally);
        }
        tally
    }
}
