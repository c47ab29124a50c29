//! How a race is run, on a cache made for it.

ghost use Rattle.std.specs.Thread.{IsSync};
ghost use Rattle.dc_cache.specs.Passes.{Fits};

use crate::fault::Fault;
use crate::gate::Gate;
use crate::race::{Course, Race, answer};
use crate::report::RaceRow;
use crate::tally::{Tally, nanoseconds};
use crate::threads::{Job, spread};
use crate::tree::{lines_in, plant};
use crate::work::RaceTask;
use dc_cache::{Dcache, Pass, parse};
use dc_names::MOST_INODES;
use std::alloc::Global;
use std::rt::Clock;
use std::sync::Wait;
use std::sync::atomic::AtomicU64;
use std::thread::Threads;
use std::time::Instant;

/// Runs a race on a course whose tree is made.
fn run_race<R: Threads + Wait + Clock + Sync>(
    rt: &R,
    alloc: Global,
    task: &RaceTask,
    course: &Course,
    cache: &Dcache,
    mut pass: Pass,
) -> Result<Tally, Fault>
    requires sync { IsSync R.row }
    requires pass { Fits cache.now pass }
{
    let right = answer(rt, alloc, cache, &mut pass, &course.asked);
    let (done, gate) = (AtomicU64::new(0), Gate::new(task.threads.saturating_add(1)));
    let job = Job::Race(Race {
        alloc,
        sort: task.sort,
        asked: parse(&course.asked).map_err(|_| Fault::NoPaths)?,
        made: &course.made,
        right: &right,
        lookers: task.threads,
        looks: task.looks.checked_div(task.threads).unwrap_or(0),
        done: &done,
        gate: &gate,
    });
    Ok(spread(rt, cache, &job, pass, 0, task.threads))
}

/// Times a race on a course whose tree is made.
fn timed_race<R: Threads + Wait + Clock + Sync>(
    rt: &R,
    alloc: Global,
    task: &RaceTask,
    course: &Course,
    cache: &Dcache,
    pass: Pass,
) -> Result<RaceRow, Fault>
    requires sync { IsSync R.row }
    requires pass { Fits cache.now pass }
{
    let begin = Instant::now(rt).map_err(|_| Fault::NoClock)?;
    let tally = run_race(rt, alloc, task, course, cache, pass)?;
    let took = begin.elapsed(rt).map_err(|_| Fault::NoClock)?;
    Ok(RaceRow {
        sort: task.sort,
        depth: task.depth,
        milliseconds: nanoseconds(took) / 1_000_000,
        tally,
    })
}

/// A race on a course, of whose tree these are the lines.
fn row_on<R: Threads + Wait + Clock + Sync>(
    rt: &R,
    alloc: Global,
    task: &RaceTask,
    course: &Course,
    lines: &[&[u8]],
) -> Result<RaceRow, Fault>
    requires { IsSync R.row }
{
    let (cache, mut pass) = Dcache::new(alloc, 256, MOST_INODES)?;
    plant(rt, alloc, &cache, &mut pass, lines)?;
    timed_race(rt, alloc, task, course, &cache, pass)
}

/// One race.
pub fn race_row<R: Threads + Wait + Clock + Sync>(
    rt: &R,
    alloc: Global,
    task: &RaceTask,
) -> Result<RaceRow, Fault>
    requires { IsSync R.row }
{
    let course = Course::new(alloc, task.sort, task.depth)?;
    let lines = lines_in(alloc, &course.lines)?;
    row_on(rt, alloc, task, &course, &lines)
}
