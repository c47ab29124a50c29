//! Calls that never wait, while another thread takes the lock again and again, and while it is free.

ghost use Rattle.std.specs.Thread.{IsSync};
ghost use Rattle.dc_cache.specs.Passes.{Fits};

use crate::answers::{Want, mkdir};
use crate::passes::fill;
use crate::steps::{Act, Step, Tried, is_changed, is_found, is_soon, play, play_anew};
use dc_cache::{Dcache, Follow, Kind, Pass, ROOT, Sleepless, Why};
use std::alloc::Global;
use std::sync::Wait;
use std::sync::atomic::{AtomicBool, Ordering};
use std::test::Fail;
use std::thread::{Threads, join};

/// How many files there are to be listed, so that the lister mostly has the lock.
const FILES: u64 = 100;

/// How often the directory is listed at most.
const MOST_LISTS: u32 = 200_000;

/// How often a call is tried at most.
const MOST_TRIES: u32 = 10_000_000;

/// Lists the root again and again, until the other thread has made its calls.
fn list_meanwhile<R: Wait>(
    rt: &R,
    alloc: Global,
    cache: &Dcache,
    mut pass: Pass,
    over: &AtomicBool,
) -> Pass
    requires { Fits cache.now pass }
    ensures { Fits cache.now result }
{
    for _ in 0..MOST_LISTS {
        if over.load(Ordering::SeqCst) {
            return pass;
        }
        let _told = cache.list(rt, alloc, &mut pass, ROOT, b"/");
    }
    pass
}

/// A call that asks the tree, and so tries for the lock.
#[derive(Clone, Copy)]
enum Asked {
    Change,
    Look,
    Resolve,
    Stat,
    Readlink,
    List,
    Shrink,
}

fn digit(number: u32) -> u8 {
    b'0' + (number % 10) as u8
}

/// The path of a name that is nowhere, and that no look-up with another number has filled a row for.
fn path_of(number: u32) -> [u8; 9] {
    [
        b'/',
        b'n',
        digit(number / 1_000_000),
        digit(number / 100_000),
        digit(number / 10_000),
        digit(number / 1_000),
        digit(number / 100),
        digit(number / 10),
        digit(number),
    ]
}

/// Whether a call answers `None`, the one of the try with this number. Its other answers alter nothing.
fn is_none(alloc: Global, cache: &Dcache, pass: &mut Pass, asked: Asked, number: u32) -> bool
    requires { Fits cache.now pass.old }
    ensures { Fits cache.now pass.new }
{
    match asked {
        Asked::Change => cache.try_change(alloc, pass, &mkdir(b"/a00/a")).is_none(),
        Asked::Look => cache
            .try_look(alloc, pass, ROOT, b"/n", Follow::Yes)
            .is_none(),
        Asked::Resolve => cache
            .try_resolve(alloc, pass, ROOT, &path_of(number), Follow::Yes)
            .is_none(),
        Asked::Stat => cache.try_stat(pass, ROOT, b"/").is_none(),
        Asked::Readlink => cache.try_readlink(alloc, pass, ROOT, b"/").is_none(),
        Asked::List => cache.try_list(alloc, pass, ROOT, b"/").is_none(),
        Asked::Shrink => cache.try_shrink(pass, 1).is_none(),
    }
}

/// Whether look-ups that need no lock are answered: two by the rows alone, and one of a text that is no path.
fn is_answered(alloc: Global, cache: &Dcache, pass: &mut Pass) -> bool
    requires { Fits cache.now pass.old }
    ensures { Fits cache.now pass.new }
{
    let root = Want::Found(1, Kind::Dir);
    let fast = is_soon(alloc, cache, pass, &Step::Fast(b"/..", root, FILES));
    let found = cache.try_resolve(alloc, pass, ROOT, b"/..", Follow::Yes);
    let none = cache.try_look(alloc, pass, ROOT, b"", Follow::Yes);
    fast && is_found(&found, root, FILES) && is_found(&none, Want::Refused(2), FILES)
}

/// Tries a call until another pass has the lock, and says whether it came to that, and whether look-ups
/// that need no lock were answered all the same.
fn is_refused_once(alloc: Global, cache: &Dcache, pass: &mut Pass, asked: Asked) -> bool
    requires { Fits cache.now pass.old }
    ensures { Fits cache.now pass.new }
{
    for number in 0..MOST_TRIES {
        if is_none(alloc, cache, pass, asked, number) {
            return is_answered(alloc, cache, pass);
        }
    }
    false
}

/// Tries each call until another pass has the lock, and says whether it came to that with all of them.
fn try_each(alloc: Global, cache: &Dcache, mut pass: Pass, over: &AtomicBool) -> (Pass, bool)
    requires { Fits cache.now pass }
    ensures { Fits cache.now result.0 }
{
    let mut all = true;
    for asked in [
        Asked::Change,
        Asked::Look,
        Asked::Resolve,
        Asked::Stat,
        Asked::Readlink,
        Asked::List,
        Asked::Shrink,
    ] {
        all &= is_refused_once(alloc, cache, &mut pass, asked);
    }
    over.store(true, Ordering::SeqCst);
    (pass, all)
}

/// One thread lists while the other tries.
fn try_meanwhile<R: Threads + Wait + Sync>(
    rt: &R,
    alloc: Global,
    cache: &Dcache,
    mut pass: Pass,
    over: &AtomicBool,
) -> (Pass, bool)
    requires sync { IsSync R.row }
    requires pass { Fits cache.now pass }
    ensures { Fits cache.now result.0 }
{
    let other = cache.split(&mut pass);
    let (mut pass, (other, refused)) = join(
        rt,
        move || -> Pass
            requires { Fits cache.now pass }
            ensures { Fits cache.entry.now result }
        { list_meanwhile(rt, alloc, cache, pass, over) },
        move || -> (Pass, bool)
            requires { Fits cache.now other }
            ensures { Fits cache.entry.now result.0 }
        { try_each(alloc, cache, other, over) },
    );
    cache.join(&mut pass, other);
    (pass, refused)
}

static FREE: [Step<'static>; 1] = [Step::Try(Tried::Change(
    Act::Mkdir(b"/a"),
    Want::Done(FILES + 2),
    FILES,
))];

#[test]
fn a_held_lock_is_no_answer(rt: HostRuntime) -> Result<(), Fail> {
    let (cache, pass) = Dcache::new(rt.alloc(), 16, 1024).expect(&rt, "memory");
    let pass = fill(&rt, rt.alloc(), &cache, pass, b'a');
    let pass = fill(&rt, rt.alloc(), &cache, pass, b'b');
    let over = AtomicBool::new(false);
    let (mut pass, refused) = try_meanwhile(&rt, rt.alloc(), &cache, pass, &over);
    assert!(rt; refused);
    play(&rt, rt.alloc(), &cache, &mut pass, &FREE)
}

static WHOLE_PATH: [Step<'static>; 6] = [
    Step::Try(Tried::Change(Act::Mkdir(b"/d"), Want::Done(2), 0)),
    Step::Try(Tried::Change(Act::Create(b"/d/f"), Want::Done(3), 1)),
    Step::Try(Tried::Change(Act::Symlink(b"./d", b"/s"), Want::Done(4), 2)),
    Step::Again(b"/d/../s/f", Why::Miss(0)),
    Step::Try(Tried::Look(b"/d/../s/f", Follow::Yes, Want::Found(3, Kind::File), 3)),
    Step::Fast(b"/d/../s/f", Want::Found(3, Kind::File), 3),
];

/// The rows of each name, dot-dot and link of the path are filled at once.
#[test]
fn one_look_fills_the_whole_path(rt: HostRuntime) -> Result<(), Fail> {
    play_anew(&rt, rt.alloc(), 16, 16, &WHOLE_PATH)
}

static RESOLVED: [Step<'static>; 12] = [
    Step::Try(Tried::Change(Act::Mkdir(b"/a"), Want::Done(2), 0)),
    Step::Try(Tried::Change(Act::Create(b"/a/f"), Want::Done(3), 1)),
    Step::Try(Tried::Change(Act::Symlink(b"f", b"/a/l"), Want::Done(4), 2)),
    Step::Again(b"/a/f", Why::Miss(0)),
    Step::Try(Tried::Resolve(b"/a/f", Follow::Yes, Want::Found(3, Kind::File), 3)),
    Step::Fast(b"/a/f", Want::Found(3, Kind::File), 3),
    Step::Try(Tried::Resolve(b"/a/l", Follow::No, Want::Found(4, Kind::Link), 3)),
    Step::Try(Tried::Resolve(b"/a/../a/l", Follow::Yes, Want::Found(3, Kind::File), 3)),
    Step::Fast(b"/a/../a/l", Want::Found(3, Kind::File), 3),
    Step::Try(Tried::Resolve(b"/a/g", Follow::Yes, Want::Refused(2), 3)),
    Step::Fast(b"/a/g", Want::Refused(2), 3),
    Step::Try(Tried::Resolve(b"", Follow::Yes, Want::Refused(2), 3)),
];

/// Behind the names whose rows answer the tree does, and its rows are filled, also of a dot-dot and a link.
#[test]
fn one_call_goes_on_from_where_the_rows_end(rt: HostRuntime) -> Result<(), Fail> {
    play_anew(&rt, rt.alloc(), 16, 16, &RESOLVED)
}

static ANSWERED: [Step<'static>; 7] = [
    Step::Try(Tried::Change(Act::Symlink(b"./d", b"/s"), Want::Done(2), 0)),
    Step::Try(Tried::Look(b"/s", Follow::No, Want::Found(2, Kind::Link), 1)),
    Step::Try(Tried::Stat(b"/", Want::Stat(1, Kind::Dir, 1), 1)),
    Step::Try(Tried::Readlink(b"/s", Want::Text(b"./d"), 1)),
    Step::Try(Tried::List(b"/", Want::Names(&[b"s"]), 1)),
    Step::Try(Tried::Shrink(2, 1)),
    Step::Again(b"/s", Why::Miss(0)),
];

#[test]
fn a_free_lock_is_an_answer(rt: HostRuntime) -> Result<(), Fail> {
    play_anew(&rt, rt.alloc(), 1, 16, &ANSWERED)
}

/// Whether a pass that is split off makes a change.
fn is_made_apart(alloc: Global, cache: &Sleepless, pass: &mut Pass) -> bool
    requires { Fits cache.now pass.old }
    ensures { Fits cache.now pass.new }
{
    let mut other = cache.split(pass);
    let made = cache.try_change(alloc, &mut other, &mkdir(b"/a"));
    cache.join(pass, other);
    is_changed(&made, Want::Done(2), 0)
}

/// Whether a pass learns of one change, and of no second one, and nobody has slept.
fn learns_of_one(cache: &Sleepless, pass: &mut Pass) -> bool
    requires { Fits cache.now pass.old }
    ensures { Fits cache.now pass.new }
{
    let learns = cache.learn(pass, 1).is_ok() && cache.learn(pass, 2).is_err();
    learns && cache.counts().sleeps == 0
}

/// The clock of a cache that is closed.
fn clock_of(cache: Sleepless, pass: Pass) -> Option<u64>
    requires { Fits cache pass }
{
    let ended = cache.close(pass)?;
    Some(ended.clock)
}

#[test]
fn nobody_sleeps_on_a_cache_without_waiting(rt: HostRuntime) {
    let (cache, mut pass) = Sleepless::new(rt.alloc(), 1, 16).expect(&rt, "memory");
    assert!(rt; is_made_apart(rt.alloc(), &cache, &mut pass));
    assert!(rt; learns_of_one(&cache, &mut pass));
    assert!(rt; clock_of(cache, pass) == Some(1));
}
