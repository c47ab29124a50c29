//! Threads, each with a pass of its own, that do one job together.

ghost use Rattle.dc_cache.specs.Passes.{Fits};
ghost use Rattle.std.specs.Thread.{IsSync};

use crate::holds::Holds;
use crate::look::Looks;
use crate::race::Race;
use crate::tally::Tally;
use crate::waits::Waits;
use dc_cache::{Dcache, Pass};
use std::rt::Clock;
use std::sync::Wait;
use std::thread::{Threads, join};

/// What the threads do.
#[derive(Clone, Copy)]
pub enum Job<'a> {
    Look(Looks<'a>),
    Race(Race<'a>),
    Wait(Waits<'a>),
    Hold(Holds<'a>),
}

/// What one thread does.
fn work<R: Wait + Clock>(
    rt: &R,
    cache: &Dcache,
    job: &Job<'_>,
    mut pass: Pass,
    thread: u64,
) -> Tally
    requires { Fits cache.now pass }
{
    match job {
        Job::Look(looks) => looks.run(rt, cache, &mut pass, thread),
        Job::Race(race) => race.run(rt, cache, &mut pass, thread),
        Job::Wait(waits) => waits.run(rt, cache, &mut pass, thread),
        Job::Hold(holds) => holds.run(rt, cache, &mut pass, thread),
    }
}

/// Does a job in a thread, and in this many others at the same time. Their passes end with them.
pub fn spread<R: Threads + Wait + Clock + Sync>(
    rt: &R,
    cache: &Dcache,
    job: &Job<'_>,
    mut pass: Pass,
    thread: u64,
    others: u64,
) -> Tally
    requires sync { IsSync R.row }
    requires pass { Fits cache.now pass }
{
    if others == 0 {
        return work(rt, cache, job, pass, thread);
    }
    let other = cache.split(&mut pass);
    let rest = others - 1;
    let (mut tally, more) = join(
        rt,
        move || -> Tally
            requires { Fits cache.now pass }
        { work(rt, cache, job, pass, thread) },
        move || -> Tally
            requires { IsSync R.row × Fits cache.now other }
        { spread(rt, cache, job, other, thread.saturating_add(1), rest) },
    );
    tally.take_in(more);
    tally
}

/// Does a job in a thread, and in this many others at the same time, and tells the first one's tally from
/// those of the others.
pub fn first_and_others<R: Threads + Wait + Clock + Sync>(
    rt: &R,
    cache: &Dcache,
    job: &Job<'_>,
    mut pass: Pass,
    others: u64,
) -> (Tally, Tally)
    requires sync { IsSync R.row }
    requires pass { Fits cache.now pass }
{
    let other = cache.split(&mut pass);
    let rest = others.saturating_sub(1);
    join(
        rt,
        move || -> Tally
            requires { Fits cache.now pass }
        { work(rt, cache, job, pass, 0) },
        move || -> Tally
            requires { IsSync R.row × Fits cache.now other }
        { spread(rt, cache, job, other, 1, rest) },
    )
}
