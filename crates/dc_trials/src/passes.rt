//! One pass and two, with values that come from the rules of POSIX.

ghost use Rattle.std.specs.Thread.{IsSync};
ghost use Rattle.dc_cache.specs.Passes.{Fits};

use crate::answers::{Want, create};
use crate::steps::{Act, Step, play, play_anew};
use dc_cache::{Dcache, Follow, Kind, MakeFault, NotYet, Pass, Store, Why};
use dc_names::NAME_MAX;
use std::alloc::Global;
use std::sync::Wait;
use std::test::Fail;
use std::thread::{Threads, join};

/// Buckets and inodes of which no cache is made.
static BAD_SIZES: [(u64, u64); 5] = [(0, 16), (3, 16), (2048, 16), (1, 0), (1, 1_048_577)];

static GOOD_SIZES: [(u64, u64); 2] = [(1, 1), (1024, 1_048_576)];

/// Whether a cache of this many buckets and inodes is made. `None` if memory is refused.
fn is_made(alloc: Global, buckets: u64, max_inodes: u64) -> Option<bool> {
    match Dcache::new(alloc, buckets, max_inodes) {
        Ok(_) => Some(true),
        Err(MakeFault::BadSize) => Some(false),
        Err(_) => None,
    }
}

#[test]
fn a_cache_has_its_sizes(rt: HostRuntime) {
    for (buckets, max_inodes) in BAD_SIZES.iter() {
        assert!(rt; is_made(rt.alloc(), *buckets, *max_inodes) == Some(false));
    }
    for (buckets, max_inodes) in GOOD_SIZES.iter() {
        assert!(rt; is_made(rt.alloc(), *buckets, *max_inodes) == Some(true));
    }
}

/// Buckets and inodes of which `with_buckets` makes no cache.
static BAD_BUCKETS: [(u64, u64); 5] = [
    (0, 16),
    (3 * 1024, 16),
    (1 << 23, 16),
    (2048, 0),
    (2048, 4_294_967_297),
];

/// Buckets and inodes of which it makes one. More buckets would take gigabytes.
static BUCKETS: [(u64, u64); 3] = [(1, 4_294_967_296), (2048, 1_048_577), (65_536, 16)];

/// A directory that is made, and whose row is filled by a look-up.
static MADE_AND_FOUND: [Step<'static>; 3] = [
    Step::Change(Act::Mkdir(b"/a"), Want::Done(2), 0),
    Step::Look(b"/a", Follow::Yes, Want::Found(2, Kind::Dir), 1),
    Step::Fast(b"/a", Want::Found(2, Kind::Dir), 1),
];

/// Plays the steps over a new cache with this many buckets and inodes.
fn play_with_buckets<R: Wait>(
    rt: &R,
    alloc: Global,
    buckets: u64,
    max_inodes: u64,
) -> Result<(), Fail> {
    let (cache, mut pass) = Dcache::with_buckets(alloc, buckets, max_inodes)?;
    play(rt, alloc, &cache, &mut pass, &MADE_AND_FOUND)
}

/// Whether this many buckets or inodes are refused.
fn are_refused(alloc: Global, buckets: u64, max_inodes: u64) -> bool {
    let made = Dcache::with_buckets(alloc, buckets, max_inodes);
    matches!(made, Err(MakeFault::BadSize))
}

#[test]
fn a_cache_has_as_many_buckets_as_the_work_wants(rt: HostRuntime) -> Result<(), Fail> {
    for (buckets, max_inodes) in BAD_BUCKETS.iter() {
        assert!(rt; are_refused(rt.alloc(), *buckets, *max_inodes));
    }
    for (buckets, max_inodes) in BUCKETS.iter() {
        play_with_buckets(&rt, rt.alloc(), *buckets, *max_inodes)?;
    }
    Ok(())
}

static MADE: [Step<'static>; 1] = [Step::Change(Act::Mkdir(b"/a"), Want::Done(2), 0)];

static LEARNT: [Step<'static>; 4] = [
    Step::Fast(b"/", Want::Found(1, Kind::Dir), 1),
    Step::Again(b"/a", Why::Miss(0)),
    Step::Look(b"/a", Follow::Yes, Want::Found(2, Kind::Dir), 1),
    Step::Fast(b"/a", Want::Found(2, Kind::Dir), 1),
];

/// The clock of a cache that is closed, and how many inodes live in its tree.
pub fn left_behind(cache: Dcache, pass: Pass) -> Option<(u64, u64)>
    requires { Fits cache pass }
{
    let ended = cache.close(pass)?;
    Some((ended.clock, ended.store.live()))
}

/// Whether a pass learns of one change, and of no second one.
fn learns_of_one(cache: &Dcache, pass: &mut Pass) -> bool
    requires { Fits cache.now pass.old }
    ensures { Fits cache.now pass.new }
{
    cache.learn(pass, 2) == Err(NotYet(1)) && cache.learn(pass, 1) == Ok(())
}

/// One pass makes a change, and another learns of it. Says whether that went as it should.
fn is_learnt<R: Wait>(
    rt: &R,
    alloc: Global,
    cache: &Dcache,
    pass: &mut Pass,
    other: &mut Pass,
) -> Result<bool, Fail>
    requires pass { Fits cache.now pass.old }
    requires other { Fits cache.now other.old }
    ensures pass { Fits cache.now pass.new }
    ensures other { Fits cache.now other.new }
{
    play(rt, alloc, cache, pass, &MADE)?;
    let learnt = learns_of_one(cache, other);
    play(rt, alloc, cache, other, &LEARNT)?;
    Ok(learnt)
}

#[test]
fn a_pass_learns_how_far_another_came(rt: HostRuntime) -> Result<(), Fail> {
    let (cache, mut p) = Dcache::new(rt.alloc(), 1, 16).expect(&rt, "memory");
    let mut q = cache.split(&mut p);
    assert!(rt; is_learnt(&rt, rt.alloc(), &cache, &mut p, &mut q)?);
    cache.join(&mut p, q);
    assert!(rt; left_behind(cache, p) == Some((1, 2)));
    Ok(())
}

#[test]
fn a_point_that_has_not_come_has_a_text(rt: HostRuntime) -> Result<(), Fail> {
    let told = format!(in rt.alloc(); "{}", NotYet(7))?;
    assert_eq!(rt; told.as_str(), "the tree was altered 7 times so far");
    Ok(())
}

/// A look-up that always asks under the lock would leave no row behind.
#[test]
fn a_look_fills_the_rows_that_it_needs(rt: HostRuntime) -> Result<(), Fail> {
    play_anew(&rt, rt.alloc(), 1, 16, &MADE_AND_FOUND)
}

static EMPTIED: [Step<'static>; 9] = [
    Step::Counted(b"/a", Want::Refused(2), 0),
    Step::Look(b"/b", Follow::Yes, Want::Refused(2), 0),
    Step::Look(b"/c", Follow::Yes, Want::Refused(2), 0),
    Step::Look(b"/a", Follow::Yes, Want::Refused(2), 0),
    Step::Shrink(2, 2),
    Step::Again(b"/a", Why::Miss(0)),
    Step::Again(b"/b", Why::Miss(0)),
    Step::Fast(b"/c", Want::Refused(2), 0),
    Step::Shrink(2, 1),
];

/// A walk through rows that are filled doesn't count as a use of them, so the row of `/a` goes first.
#[test]
fn the_least_recently_used_rows_are_emptied(rt: HostRuntime) -> Result<(), Fail> {
    play_anew(&rt, rt.alloc(), 1, 16, &EMPTIED)
}

static ONE_AFTER_ANOTHER: [Step<'static>; 11] = [
    Step::Change(Act::Create(b"/a"), Want::Done(2), 0),
    Step::Look(b"/a", Follow::Yes, Want::Found(2, Kind::File), 1),
    Step::Change(Act::Create(b"/b"), Want::Done(3), 1),
    Step::Look(b"/b", Follow::Yes, Want::Found(3, Kind::File), 2),
    Step::Change(Act::Create(b"/c"), Want::Done(4), 2),
    Step::Look(b"/c", Follow::Yes, Want::Found(4, Kind::File), 3),
    Step::Change(Act::Create(b"/d"), Want::Done(5), 3),
    Step::Look(b"/d", Follow::Yes, Want::Found(5, Kind::File), 4),
    Step::Change(Act::Create(b"/e"), Want::Done(6), 4),
    Step::Look(b"/e", Follow::Yes, Want::Found(6, Kind::File), 5),
    Step::Look(b"/a", Follow::Yes, Want::Found(2, Kind::File), 5),
];

/// The fifth name of a bucket of four rows takes a row of another, and nobody sees it.
#[test]
fn rows_serve_one_name_after_another(rt: HostRuntime) -> Result<(), Fail> {
    play_anew(&rt, rt.alloc(), 1, 16, &ONE_AFTER_ANOTHER)
}

static READS: [Step<'static>; 12] = [
    Step::Change(Act::Mkdir(b"/d"), Want::Done(2), 0),
    Step::Change(Act::Create(b"/d/f"), Want::Done(3), 1),
    Step::Change(Act::Symlink(b"./d", b"/s"), Want::Done(4), 2),
    Step::Look(b"/s/f", Follow::Yes, Want::Found(3, Kind::File), 3),
    Step::Look(b"/s", Follow::No, Want::Found(4, Kind::Link), 3),
    Step::Look(b"/s/", Follow::No, Want::Found(2, Kind::Dir), 3),
    Step::Look(b"/s/../d", Follow::Yes, Want::Found(2, Kind::Dir), 3),
    Step::Look(b"", Follow::Yes, Want::Refused(2), 3),
    Step::Look(&[b'n'; 256], Follow::Yes, Want::Refused(36), 3),
    Step::Look(b"/\0", Follow::Yes, Want::Refused(22), 3),
    Step::Stat(b"/d/f", Want::Stat(3, Kind::File, 1), 3),
    Step::Stat(b"", Want::Refused(2), 3),
];

#[test]
fn reads_are_answered(rt: HostRuntime) -> Result<(), Fail> {
    play_anew(&rt, rt.alloc(), 256, 65536, &READS)
}

static READS_WITH_MEMORY: [Step<'static>; 4] = [
    Step::Change(Act::Mkdir(b"/d"), Want::Done(2), 0),
    Step::Change(Act::Symlink(b"./d", b"/s"), Want::Done(3), 1),
    Step::Readlink(b"/s", Want::Text(b"./d"), 2),
    Step::List(b"/", Want::Names(&[b"d", b"s"]), 2),
];

#[test]
fn reads_that_take_memory_are_answered(rt: HostRuntime) -> Result<(), Fail> {
    play_anew(&rt, rt.alloc(), 1, 16, &READS_WITH_MEMORY)
}

const FILE: Want<'static> = Want::Found(3, Kind::File);

static LINKS: [Step<'static>; 12] = [
    Step::Change(Act::Mkdir(b"/d"), Want::Done(2), 0),
    Step::Change(Act::Create(b"/d/f"), Want::Done(3), 1),
    Step::Change(Act::Symlink(b"./d", b"/s"), Want::Done(4), 2),
    Step::Again(b"/s/f", Why::Miss(0)),
    Step::Look(b"/s/f", Follow::Yes, FILE, 3),
    Step::Fast(b"/s/f", FILE, 3),
    Step::Change(Act::Unlink(b"/s"), Want::Unit, 3),
    Step::Fast(b"/s/f", Want::Refused(2), 4),
    Step::Change(Act::Symlink(b"d", b"/s"), Want::Done(5), 4),
    Step::Again(b"/s/f", Why::Link),
    Step::Look(b"/s/f", Follow::Yes, FILE, 5),
    Step::Fast(b"/s/f", FILE, 5),
];

/// The text of a link stands in a row as long as the link has a name. A new link of that name is
/// another, whose text the tree is asked for.
#[test]
fn links_are_followed_by_their_rows(rt: HostRuntime) -> Result<(), Fail> {
    play_anew(&rt, rt.alloc(), 1, 16, &LINKS)
}

static FILE_IN_DIRECTORY: [Step<'static>; 2] = [
    Step::Change(Act::Mkdir(b"/d"), Want::Done(2), 0),
    Step::Change(Act::Create(b"/d/f"), Want::Done(3), 1),
];

static BY_A_LONG_TEXT: [Step<'static>; 6] = [
    Step::Again(b"/t/f", Why::Miss(0)),
    Step::Look(b"/t/f", Follow::Yes, FILE, 3),
    Step::Again(b"/t/f", Why::Link),
    Step::Look(b"/t/f", Follow::Yes, FILE, 3),
    Step::Again(b"/t/f", Why::Link),
    Step::Look(b"/t/f", Follow::Yes, FILE, 3),
];

/// Plays these steps around one that makes a link.
fn play_with_link<R: Wait>(rt: &R, alloc: Global, text: &[u8]) -> Result<(), Fail> {
    let link = [Step::Change(Act::Symlink(text, b"/t"), Want::Done(4), 2)];
    let (cache, mut pass) = Dcache::new(alloc, 1, 16)?;
    play(rt, alloc, &cache, &mut pass, &FILE_IN_DIRECTORY)?;
    play(rt, alloc, &cache, &mut pass, &link)?;
    play(rt, alloc, &cache, &mut pass, &BY_A_LONG_TEXT)
}

/// A row has no room for a text that is longer than a name: each look-up asks for it under the lock.
#[test]
fn a_text_without_room_is_asked_under_the_lock(rt: HostRuntime) -> Result<(), Fail> {
    let mut text = [b'/'; NAME_MAX + 1];
    text[NAME_MAX] = b'd';
    play_with_link(&rt, rt.alloc(), &text)
}

/// Creates fifty files whose names begin with this letter, looks each up, and returns the pass.
pub fn fill<R: Wait>(rt: &R, alloc: Global, cache: &Dcache, mut pass: Pass, letter: u8) -> Pass
    requires { Fits cache.now pass }
    ensures { Fits cache.now result }
{
    for i in 0..50 {
        let path = [b'/', letter, b'0' + i / 10, b'0' + i % 10];
        let _made = cache.change(rt, alloc, &mut pass, &create(&path));
        let _found = cache.look(rt, alloc, &mut pass, 1, &path, Follow::Yes);
    }
    pass
}

/// A pass and one that is split off it fill the cache in two threads.
fn fill_both<R: Threads + Wait + Sync>(
    rt: &R,
    alloc: Global,
    cache: &Dcache,
    mut pass: Pass,
) -> Pass
    requires sync { IsSync R.row }
    requires pass { Fits cache.now pass }
    ensures { Fits cache.now result }
{
    let other = cache.split(&mut pass);
    let (mut pass, other) = join(
        rt,
        move || -> Pass
            requires { Fits cache.now pass }
            ensures { Fits cache.entry.now result }
        { fill(rt, alloc, cache, pass, b'a') },
        move || -> Pass
            requires { Fits cache.now other }
            ensures { Fits cache.entry.now result }
        { fill(rt, alloc, cache, other, b'b') },
    );
    cache.join(&mut pass, other);
    pass
}

#[test]
fn threads_share_a_cache(rt: HostRuntime) {
    let (cache, pass) = Dcache::new(rt.alloc(), 16, 1024).expect(&rt, "memory");
    let pass = fill_both(&rt, rt.alloc(), &cache, pass);
    assert!(rt; left_behind(cache, pass) == Some((100, 101)));
}

static FILLED_AT_ONCE: [Step<'static>; 7] = [
    Step::Change(Act::Mkdir(b"/a"), Want::Done(2), 0),
    Step::Change(Act::Mkdir(b"/a/b"), Want::Done(3), 1),
    Step::Again(b"/a/b", Why::Miss(0)),
    Step::Filled(b"/a/b", Want::Found(3, Kind::Dir), 2),
    Step::Fast(b"/a/b", Want::Found(3, Kind::Dir), 2),
    Step::Filled(b"/c", Want::Refused(2), 2),
    Step::Filled(b"/d", Want::Refused(2), 2),
];

static ONE_MORE: [Step<'static>; 1] = [Step::Filled(b"/e", Want::Refused(2), 2)];

static NO_LONGER: [Step<'static>; 1] = [Step::Again(b"/a", Why::Miss(0))];

/// Fills the rows of a whole path, and then of one name more than a bucket has room for. It tells how many rows
/// had lost their key before the last one and after it.
fn evictions<R: Wait>(
    rt: &R,
    alloc: Global,
    cache: &Dcache,
    pass: &mut Pass,
) -> Result<(u64, u64), Fail>
    requires { Fits cache.now pass.old }
    ensures { Fits cache.now pass.new }
{
    play(rt, alloc, cache, pass, &FILLED_AT_ONCE)?;
    let before = cache.counts().evictions;
    play(rt, alloc, cache, pass, &ONE_MORE)?;
    Ok((before, cache.counts().evictions))
}

/// A look-up that fills the rows of its whole path: the next one goes by them. The fifth name of one bucket
/// takes a row of another.
#[test]
fn a_path_is_filled_under_one_hold(rt: HostRuntime) -> Result<(), Fail> {
    let (cache, mut p) = Dcache::new(rt.alloc(), 1, 16).expect(&rt, "memory");
    assert!(rt; evictions(&rt, rt.alloc(), &cache, &mut p)? == (0, 1));
    assert!(rt; cache.counts().sleeps == 0);
    assert!(rt; cache.counts().rows == 4);
    play(&rt, rt.alloc(), &cache, &mut p, &NO_LONGER)
}

static THROUGH_A_LINK: [Step<'static>; 3] = [
    Step::Change(Act::Mkdir(b"/a"), Want::Done(2), 0),
    Step::Change(Act::Symlink(b"a", b"/l"), Want::Done(3), 1),
    Step::Filled(b"/l", Want::Found(2, Kind::Dir), 2),
];

static WITHOUT_ITS_LINK: [Step<'static>; 1] = [Step::Change(Act::Unlink(b"/l"), Want::Unit, 2)];

/// The rows of a link, of its text and of what it leads to are in use. The text's is emptied as the link goes,
/// the link's tells that it is gone. Then one of the two is emptied.
#[test]
fn rows_in_use_are_counted(rt: HostRuntime) -> Result<(), Fail> {
    let (cache, mut p) = Dcache::new(rt.alloc(), 64, 16).expect(&rt, "memory");
    assert!(rt; cache.counts().rows == 0);
    play(&rt, rt.alloc(), &cache, &mut p, &THROUGH_A_LINK)?;
    assert!(rt; cache.counts().rows == 3);
    play(&rt, rt.alloc(), &cache, &mut p, &WITHOUT_ITS_LINK)?;
    assert!(rt; cache.counts().rows == 2);
    assert!(rt; cache.shrink(&rt, &mut p, 1) == 1);
    assert!(rt; cache.counts().rows == 1);
    Ok(())
}

static FILLED_FURTHER: [Step<'static>; 11] = [
    Step::Change(Act::Mkdir(b"/a"), Want::Done(2), 0),
    Step::Change(Act::Mkdir(b"/a/b"), Want::Done(3), 1),
    Step::Filled(b"/a/b", Want::Found(3, Kind::Dir), 2),
    Step::Change(Act::Create(b"/a/b/f"), Want::Done(4), 2),
    Step::Change(Act::Symlink(b"b", b"/a/l"), Want::Done(5), 3),
    Step::Filled(b"/a/b/f", Want::Found(4, Kind::File), 4),
    Step::Fast(b"/a/b/f", Want::Found(4, Kind::File), 4),
    Step::Filled(b"/a/b/../l/f", Want::Found(4, Kind::File), 4),
    Step::Fast(b"/a/b/../l/f", Want::Found(4, Kind::File), 4),
    Step::Filled(b"/a/b/g", Want::Refused(2), 4),
    Step::Fast(b"/a/b/g", Want::Refused(2), 4),
];

/// A look-up that goes on from where the rows end, also behind a dot-dot, a link and a key that comes up
/// twice.
#[test]
fn a_path_is_filled_from_where_its_rows_end(rt: HostRuntime) -> Result<(), Fail> {
    play_anew(&rt, rt.alloc(), 16, 16, &FILLED_FURTHER)
}
