//! How a row of holds is timed, on a cache made for it.

ghost use Rattle.std.specs.Thread.{IsSync};
ghost use Rattle.dc_cache.specs.Passes.{Fits};

use crate::fault::Fault;
use crate::gate::Gate;
use crate::held::HoldRow;
use crate::holds::{FOLDER, Holds};
use crate::tally::Tally;
use crate::threads::{Job, spread};
use crate::tree::{asked_in, lines_in, plant};
use crate::work::Taker;
use dc_cache::{Dcache, Pass};
use dc_names::MOST_INODES;
use std::alloc::{AllocError, Global};
use std::rt::Clock;
use std::sync::Wait;
use std::thread::Threads;
use std::time::Duration;

/// How many files the directory has: one for each of the most threads.
const FILES: u64 = 64;

/// The lines of the directory and its files.
fn lines_of(alloc: Global) -> Result<Vec<u8>, AllocError> {
    let mut lines = Vec::from_slice(alloc, b"d /a\nd /a/b\nd /a/b/c\n")?;
    for number in 0..FILES {
        let line = format!(in alloc; "f {FOLDER}/{number}\n")?;
        lines.extend_from_slice(line.as_bytes())?;
    }
    Ok(lines)
}

/// Times calls of one kind on a cache whose tree is made.
fn timed_calls<R: Threads + Wait + Clock + Sync>(
    rt: &R,
    cache: &Dcache,
    pass: Pass,
    holds: &Holds<'_>,
) -> Tally
    requires sync { IsSync R.row }
    requires pass { Fits cache.now pass }
{
    let others = holds.threads.saturating_sub(1);
    let mut tally = spread(rt, cache, &Job::Hold(*holds), pass, 0, others);
    tally.sort();
    tally
}

/// Times the row of one kind of call by this many threads.
pub fn hold_row<R: Threads + Wait + Clock + Sync>(
    rt: &R,
    alloc: Global,
    time: Duration,
    taker: Taker,
    threads: u64,
) -> Result<HoldRow, Fault>
    requires { IsSync R.row }
{
    let (cache, mut pass) = Dcache::new(alloc, 256, MOST_INODES)?;
    let text = lines_of(alloc)?;
    let lines = lines_in(alloc, &text)?;
    plant(rt, alloc, &cache, &mut pass, &lines)?;
    let files = asked_in(alloc, &lines)?;
    let gate = Gate::new(threads);
    let holds = Holds {
        alloc,
        taker,
        files: &files,
        threads,
        time,
        gate: &gate,
    };
    let tally = timed_calls(rt, &cache, pass, &holds);
    Ok(HoldRow {
        taker,
        threads,
        tally,
    })
}
