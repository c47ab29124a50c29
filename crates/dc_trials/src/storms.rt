//! Four threads fill, change and empty the rows of one bucket. Afterwards no row is pinned: all four can
//! be emptied, and serve four other names.

ghost use Rattle.std.specs.Thread.{IsSync};
ghost use Rattle.dc_cache.specs.Passes.{Fits};

use crate::answers::Want;
use crate::steps::{Step, is_so};
use dc_cache::{Dcache, Follow, Pass, ROOT, Reply};
use dc_names::NoMemory;
use dc_soak::Round;
use std::alloc::Global;
use std::sync::Wait;
use std::test::Fail;
use std::thread::Threads;

/// The threads, with calls of all kinds.
const STORM: Round = Round {
    seed: 1,
    place: 0,
    threads: 4,
    steps: 400,
};

/// Looks up a name that is absent, and answers at which point it is so.
fn absent_at<R: Wait>(
    rt: &R,
    alloc: Global,
    cache: &Dcache,
    pass: &mut Pass,
    name: &[u8],
) -> Option<u64>
    requires { Fits cache.now pass.old }
    ensures { Fits cache.now pass.new }
{
    let found = cache.look(rt, alloc, pass, ROOT, name, Follow::Yes);
    if found.reply == Reply::Refused(2) {
        Some(found.at)
    } else {
        None
    }
}

/// Names that are absent beside `t`.
static OTHERS: [&[u8]; 3] = [b"u", b"v", b"w"];

static FOUR: [&[u8]; 4] = [b"t", b"u", b"v", b"w"];

/// Looks the other names up, and says whether each is absent at a point.
fn are_absent<R: Wait>(rt: &R, alloc: Global, cache: &Dcache, pass: &mut Pass, at: u64) -> bool
    requires { Fits cache.now pass.old }
    ensures { Fits cache.now pass.new }
{
    let mut all = true;
    for name in OTHERS.iter() {
        let step = Step::Look(name, Follow::Yes, Want::Refused(2), at);
        all &= is_so(rt, alloc, cache, pass, &step);
    }
    all
}

/// Whether the rows alone say that all four names are absent at a point.
fn are_told<R: Wait>(rt: &R, alloc: Global, cache: &Dcache, pass: &mut Pass, at: u64) -> bool
    requires { Fits cache.now pass.old }
    ensures { Fits cache.now pass.new }
{
    let mut all = true;
    for name in FOUR.iter() {
        let step = Step::Fast(name, Want::Refused(2), at);
        all &= is_so(rt, alloc, cache, pass, &step);
    }
    all
}

/// Whether the four rows serve four other names.
fn serve_others<R: Wait>(rt: &R, alloc: Global, cache: &Dcache, pass: &mut Pass) -> bool
    requires { Fits cache.now pass.old }
    ensures { Fits cache.now pass.new }
{
    match absent_at(rt, alloc, cache, pass, b"t") {
        Some(at) => {
            are_absent(rt, alloc, cache, pass, at) && are_told(rt, alloc, cache, pass, at)
        }
        None => false,
    }
}

/// Runs the threads over the cache, and counts the answers that they got.
fn storm<R: Threads + Wait + Sync>(
    rt: &R,
    alloc: Global,
    cache: &Dcache,
    pass: &mut Pass,
) -> Result<usize, NoMemory>
    requires sync { IsSync R.row }
    requires pass { Fits cache.now pass.old }
    ensures { Fits cache.now pass.new }
{
    let answers = STORM.storm(rt, alloc, cache, pass)?;
    Ok(answers.stamps.len())
}

/// Whether all rows can be emptied.
fn are_emptied<R: Wait>(rt: &R, cache: &Dcache, pass: &mut Pass) -> bool
    requires { Fits cache.now pass.old }
    ensures { Fits cache.now pass.new }
{
    cache.shrink(rt, pass, 4) <= 4 && cache.shrink(rt, pass, 4) == 0
}

#[test]
fn no_pin_outlives_its_walk(rt: HostRuntime) -> Result<(), Fail> {
    let (cache, mut pass) = Dcache::new(rt.alloc(), 1, 64)?;
    assert!(rt; storm(&rt, rt.alloc(), &cache, &mut pass)? > 1_200);
    assert!(rt; cache.counts().evictions > 100);
    assert!(rt; are_emptied(&rt, &cache, &mut pass));
    assert!(rt; serve_others(&rt, rt.alloc(), &cache, &mut pass));
    Ok(())
}
