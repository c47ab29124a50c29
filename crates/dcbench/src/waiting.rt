//! How a row of waits is timed, on a cache made for it.

ghost use Rattle.std.specs.Thread.{IsSync};
ghost use Rattle.dc_cache.specs.Passes.{Fits};

use crate::fault::Fault;
use crate::gate::Gate;
use crate::report::WaitRow;
use crate::tally::{Tally, nanoseconds};
use crate::threads::{Job, first_and_others};
use crate::tree::{lines_in, plant};
use crate::waits::{CALLERS, LONG, Waits};
use crate::work::WaitTask;
use dc_cache::{Dcache, Pass, ROOT};
use dc_names::MOST_INODES;
use std::alloc::{AllocError, Global};
use std::rt::Clock;
use std::sync::Wait;
use std::sync::atomic::AtomicU64;
use std::thread::Threads;
use std::time::{Duration, Instant};

/// The fewest names of the directory that is listed, and the most.
const FEWEST_NAMES: u64 = 100;

const MOST_NAMES: u64 = 1_000_000;

/// How many lists are timed, of which the quickest counts.
const LISTS: u64 = 5;

/// The lines of names in the directory.
fn lines_of(alloc: Global, from: u64, to: u64) -> Result<Vec<u8>, AllocError> {
    let mut lines = Vec::new(alloc);
    for number in from..to {
        let line = format!(in alloc; "c /long/{number}\n")?;
        lines.extend_from_slice(line.as_bytes())?;
    }
    Ok(lines)
}

/// Makes the names with these numbers.
fn add_names<R: Wait>(
    rt: &R,
    alloc: Global,
    cache: &Dcache,
    pass: &mut Pass,
    from: u64,
    to: u64,
) -> Result<(), Fault>
    requires { Fits cache.now pass.old }
    ensures { Fits cache.now pass.new }
{
    let text = lines_of(alloc, from, to)?;
    let lines = lines_in(alloc, &text)?;
    plant(rt, alloc, cache, pass, &lines)
}

/// How long a list takes.
fn time_of_a_list<R: Wait + Clock>(
    rt: &R,
    alloc: Global,
    cache: &Dcache,
    pass: &mut Pass,
) -> Result<Duration, Fault>
    requires { Fits cache.now pass.old }
    ensures { Fits cache.now pass.new }
{
    let mut least = Duration::MAX;
    'lists: for _ in 0..LISTS {
        let begin = Instant::now(rt).map_err(|_| Fault::NoClock)?;
        let _ = cache.list(rt, alloc, pass, ROOT, LONG);
        least = least.min(begin.elapsed(rt).map_err(|_| Fault::NoClock)?);
    }
    Ok(least)
}

/// How many names a list has that takes this long, if one of `names` took `took`.
fn names_for(hold: Duration, names: u64, took: Duration) -> u64 {
    nanoseconds(hold)
        .saturating_mul(names)
        .checked_div(nanoseconds(took))
        .unwrap_or(0)
        .min(MOST_NAMES)
}

/// Fills the directory until a list takes this long, and answers how many names it has.
fn fill<R: Wait + Clock>(
    rt: &R,
    alloc: Global,
    cache: &Dcache,
    pass: &mut Pass,
    hold: Duration,
) -> Result<u64, Fault>
    requires { Fits cache.now pass.old }
    ensures { Fits cache.now pass.new }
{
    plant(rt, alloc, cache, pass, &[b"d /long"])?;
    let mut names = 0;
    let mut more = FEWEST_NAMES;
    // The more names a list has, the longer each takes: so it comes near in steps.
    'parts: for part in [4, 2, 1] {
        add_names(rt, alloc, cache, pass, names, more)?;
        names = names.max(more);
        more = names_for(hold, names, time_of_a_list(rt, alloc, cache, pass)?) / part;
    }
    add_names(rt, alloc, cache, pass, names, more)?;
    Ok(names.max(more))
}

/// Times changes and missed look-ups beside this many threads that list the directory.
fn timed_calls<R: Threads + Wait + Clock + Sync>(
    rt: &R,
    alloc: Global,
    time: Duration,
    hogs: u64,
    cache: &Dcache,
    pass: Pass,
) -> (Tally, Tally)
    requires sync { IsSync R.row }
    requires pass { Fits cache.now pass }
{
    let others = hogs.saturating_add(CALLERS).saturating_sub(1);
    let (holds, gate) = (AtomicU64::new(0), Gate::new(others.saturating_add(1)));
    let job = Job::Wait(Waits {
        alloc,
        time,
        holds: &holds,
        gate: &gate,
    });
    let (mut changes, mut misses) = first_and_others(rt, cache, &job, pass, others);
    changes.sort();
    misses.sort();
    (changes, misses)
}

/// Times the rows of waits beside this many threads that hold the lock: of changes, and of missed look-ups.
pub fn wait_rows<R: Threads + Wait + Clock + Sync>(
    rt: &R,
    alloc: Global,
    task: &WaitTask,
    hogs: u64,
) -> Result<(WaitRow, WaitRow), Fault>
    requires { IsSync R.row }
{
    let (cache, mut pass) = Dcache::new(alloc, 256, MOST_INODES)?;
    let names = fill(rt, alloc, &cache, &mut pass, task.hold)?;
    let took = time_of_a_list(rt, alloc, &cache, &mut pass)?;
    let hold = nanoseconds(took).saturating_mul(1_000);
    let (changes, misses) = timed_calls(rt, alloc, task.time, hogs, &cache, pass);
    let row = |call, tally| WaitRow {
        call,
        hogs,
        names,
        hold,
        tally,
    };
    Ok((row("change", changes), row("miss", misses)))
}
