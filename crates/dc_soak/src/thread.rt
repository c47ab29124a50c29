//! What one thread does: calls, rows that are emptied, and passes that are split off for a while.

ghost use Rattle.dc_cache.specs.Passes.{Fits};

use crate::draw::Draw;
use crate::tally::Tally;
use crate::ways::{Way, answer, shrink};
use dc_cache::{Dcache, Pass};
use dc_check::Stamp;
use dc_names::{Kind, NoMemory};
use dc_plain::{OwnCall, Reply, Stamped};
use std::alloc::Global;
use std::sync::Wait;

/// What a thread's calls are drawn by, what they were answered, and what was counted.
#[derive(Drop)]
pub struct Thread {
    session: u64,
    draw: Draw,
    pub stamps: Vec<Stamp>,
    pub tally: Tally,
}

impl Thread {
    pub fn new(alloc: Global, seed: u64, session: u64) -> Thread {
        Thread {
            session,
            draw: Draw::new(alloc, seed, session),
            stamps: Vec::new(alloc),
            tally: Tally::default(),
        }
    }

    fn way(&mut self) -> Way {
        match self.draw.below(5) {
            0 => Way::Fills,
            1 => Way::FillsPath,
            2 => Way::Waits,
            _ => Way::Tries,
        }
    }

    /// Keeps what a call was answered.
    fn keep(&mut self, call: OwnCall, answer: Stamped) -> Result<(), NoMemory> {
        let Stamped { reply, at } = answer;
        self.tally.count(&call, &reply);
        if let Reply::Found(number, Kind::Dir) = reply {
            self.draw.base = number;
        }
        self.stamps.push(Stamp {
            session: self.session,
            call,
            reply,
            at,
        })?;
        Ok(())
    }

    /// Makes a call.
    fn call<R: Wait>(
        &mut self,
        rt: &R,
        alloc: Global,
        cache: &Dcache,
        pass: &mut Pass,
    ) -> Result<(), NoMemory>
        requires { Fits cache.now pass.old }
        ensures { Fits cache.now pass.new }
    {
        let (call, way) = (self.draw.call()?, self.way());
        let asked = call.as_call();
        let stamped = answer(rt, alloc, cache, pass, &asked, way, &mut self.tally)?;
        self.keep(call, stamped)
    }

    /// Makes calls by a pass that is split off and by its parent in turns, and takes it in again.
    fn call_apart<R: Wait>(
        &mut self,
        rt: &R,
        alloc: Global,
        cache: &Dcache,
        pass: &mut Pass,
    ) -> Result<(), NoMemory>
        requires { Fits cache.now pass.old }
        ensures { Fits cache.now pass.new }
    {
        self.tally.count_split();
        let mut child = cache.split(pass);
        let first = self.call(rt, alloc, cache, &mut child);
        let second = self.call(rt, alloc, cache, pass);
        let third = self.call(rt, alloc, cache, &mut child);
        cache.join(pass, child);
        first.and(second).and(third)
    }

    /// Takes a step: mostly a call.
    fn step<R: Wait>(
        &mut self,
        rt: &R,
        alloc: Global,
        cache: &Dcache,
        pass: &mut Pass,
    ) -> Result<(), NoMemory>
        requires { Fits cache.now pass.old }
        ensures { Fits cache.now pass.new }
    {
        match self.draw.below(32) {
            0 => {
                let (most, way) = (u64::from(self.draw.below(6)), self.way());
                shrink(rt, cache, pass, most, way, &mut self.tally);
                Ok(())
            }
            1 => self.call_apart(rt, alloc, cache, pass),
            _ => self.call(rt, alloc, cache, pass),
        }
    }

    /// Takes this many steps.
    pub fn run<R: Wait>(
        &mut self,
        rt: &R,
        alloc: Global,
        cache: &Dcache,
        pass: &mut Pass,
        steps: u64,
    ) -> Result<(), NoMemory>
        requires { Fits cache.now pass.old }
        ensures { Fits cache.now pass.new }
    {
        'steps: for _ in 0..steps {
            self.step(rt, alloc, cache, pass)?;
        }
        Ok(())
    }
}
