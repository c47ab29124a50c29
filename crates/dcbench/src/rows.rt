//! How a row of the tables is timed, on a cache made for it.

ghost use Rattle.std.specs.Thread.{IsSync};
ghost use Rattle.dc_cache.specs.Passes.{Fits};

use crate::fault::Fault;
use crate::gate::Gate;
use crate::look::Looks;
use crate::report::{ChangeRow, LookRow};
use crate::threads::{Job, spread};
use crate::tree::{plant, warm};
use crate::work::{Miss, Shape, Work};
use dc_cache::{Dcache, Pass, PathText};
use dc_names::MOST_INODES;
use std::alloc::Global;
use std::rt::Clock;
use std::sync::Wait;
use std::thread::Threads;
use std::time::Duration;

/// A tree and the paths that are looked up in it.
#[derive(Clone, Copy)]
pub struct Plan<'a> {
    pub shape: Shape,
    pub time: Duration,
    pub lines: &'a [&'a [u8]],
    pub files: &'a [&'a [u8]],
    pub paths: &'a [PathText<'a>],
    pub order: &'a [PathText<'a>],
}

/// Times look-ups on a cache whose tree is made.
fn timed_row<R: Threads + Wait + Clock + Sync>(
    rt: &R,
    alloc: Global,
    plan: &Plan<'_>,
    threads: u64,
    cache: &Dcache,
    mut pass: Pass,
) -> LookRow
    requires sync { IsSync R.row }
    requires pass { Fits cache.now pass }
{
    let gate = Gate::new(threads);
    let before = cache.counts().evictions;
    let job = Job::Look(Looks {
        alloc,
        work: plan.shape.work,
        paths: plan.order,
        files: plan.files,
        threads,
        time: plan.time,
        miss: plan.shape.miss,
        gate: &gate,
    });
    let other = cache.split(&mut pass);
    let mut tally = spread(rt, cache, &job, other, 0, threads.saturating_sub(1));
    tally.sort();
    LookRow {
        shape: plan.shape,
        threads,
        tally,
        evicted: cache.counts().evictions.saturating_sub(before),
        filled: cache.shrink(rt, &mut pass, u64::MAX),
    }
}

/// Times one row of look-ups.
pub fn look_row<R: Threads + Wait + Clock + Sync>(
    rt: &R,
    alloc: Global,
    plan: &Plan<'_>,
    threads: u64,
) -> Result<LookRow, Fault>
    requires { IsSync R.row }
{
    let (cache, mut pass) = Dcache::with_buckets(alloc, plan.shape.buckets, MOST_INODES)?;
    plant(rt, alloc, &cache, &mut pass, plan.lines)?;
    warm(rt, alloc, &cache, &mut pass, plan.paths);
    Ok(timed_row(rt, alloc, plan, threads, &cache, pass))
}

/// Times one row of changes.
pub fn change_row<R: Threads + Wait + Clock + Sync>(
    rt: &R,
    alloc: Global,
    time: Duration,
    threads: u64,
) -> Result<ChangeRow, Fault>
    requires { IsSync R.row }
{
    let (lines, paths): ([&[u8]; 0], [PathText<'_>; 0]) = ([], []);
    let plan = Plan {
        shape: Shape {
            work: Work::Change,
            depth: 1,
            hot: 0,
            buckets: 256,
            miss: Miss::NameByName,
        },
        time,
        lines: &lines,
        files: &lines,
        paths: &paths,
        order: &paths,
    };
    let LookRow { tally, .. } = look_row(rt, alloc, &plan, threads)?;
    Ok(ChangeRow { threads, tally })
}
