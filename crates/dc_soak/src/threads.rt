//! Threads that shake one cache, each with a pass of its own.

ghost use Rattle.dc_cache.specs.Passes.{Fits};
ghost use Rattle.std.specs.Thread.{IsSync};

use crate::gate::Gate;
use crate::tally::Tally;
use crate::thread::Thread;
use dc_cache::{Dcache, Pass};
use dc_check::Stamp;
use dc_names::NoMemory;
use std::alloc::Global;
use std::sync::Wait;
use std::thread::{Threads, join};

/// What some threads were answered, the stamps of each in their order, and what they counted.
#[derive(Drop)]
pub struct Answers {
    pub stamps: Vec<Stamp>,
    pub tally: Tally,
}

/// What threads come to.
type Worked = Result<Answers, NoMemory>;

/// What each of the threads does.
#[derive(Clone, Copy)]
pub struct Job<'a> {
    pub alloc: Global,
    pub seed: u64,
    /// How many steps each takes.
    pub steps: u64,
    pub gate: &'a Gate,
}

impl Answers {
    /// Takes in those of other threads.
    fn with(mut self, other: Answers) -> Worked {
        for stamp in other.stamps {
            self.stamps.push(stamp)?;
        }
        self.tally.take_in(&other.tally);
        Ok(self)
    }
}

/// What one thread does. Its pass ends with it.
fn work<R: Wait>(rt: &R, cache: &Dcache, job: Job<'_>, mut pass: Pass, number: u64) -> Worked
    requires { Fits cache.now pass }
{
    let mut thread = Thread::new(job.alloc, job.seed, number);
    job.gate.pass();
    let done = thread.run(rt, job.alloc, cache, &mut pass, job.steps);
    let Thread { stamps, tally, .. } = thread;
    done.map(|()| Answers { stamps, tally })
}

/// Both answers, if there was memory for them.
fn both(mine: Worked, others: Worked) -> Worked {
    mine?.with(others?)
}

/// A thread at work, and this many others at the same time. Their passes end with them.
pub fn spread<R: Threads + Wait + Sync>(
    rt: &R,
    cache: &Dcache,
    job: Job<'_>,
    mut pass: Pass,
    number: u64,
    others: u64,
) -> Worked
    requires sync { IsSync R.row }
    requires pass { Fits cache.now pass }
{
    if others == 0 {
        return work(rt, cache, job, pass, number);
    }
    let other = cache.split(&mut pass);
    let rest = others - 1;
    let (mine, theirs) = join(
        rt,
        move || -> Worked
            requires { Fits cache.now pass }
        { work(rt, cache, job, pass, number) },
        move || -> Worked
            requires { IsSync R.row × Fits cache.now other }
        { spread(rt, cache, job, other, number.saturating_add(1), rest) },
    );
    both(mine, theirs)
}
