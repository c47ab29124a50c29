//! Each use of `dc_uses` called once.

ghost use Rattle.dc_cache.specs.Passes.{Fits};

use crate::answers::{Want, is, is_made, mkdir};
use crate::passes::left_behind;
use crate::steps::{Act, Step, play};
use dc_cache::{Dcache, Follow, Kind, NotYet, Pass, ROOT, parse};
use dc_uses::{change_in_tries, look_after, look_twice, make_and_look, make_in_two_threads};
use std::alloc::Global;
use std::sync::Wait;
use std::test::Fail;

/// What a change and a look-up are answered, and their points.
type Both = [(Want<'static>, u64); 2];

const MADE_AND_FOUND: Both = [(Want::Done(2), 0), (Want::Found(2, Kind::Dir), 1)];

const ABSENT: Both = [(Want::Refused(2), 1), (Want::Refused(2), 1)];

/// Whether a directory is made and looked up with these answers.
fn is_made_and_found<R: Wait>(
    rt: &R,
    alloc: Global,
    cache: &Dcache,
    pass: &mut Pass,
    path: &[u8],
    wants: &Both,
) -> bool
    requires { Fits cache.now pass.old }
    ensures { Fits cache.now pass.new }
{
    let [(made, before), (found, after)] = wants;
    match make_and_look(rt, alloc, cache, pass, path) {
        Ok((one, other)) => is(&one, *made, *before) && is(&other, *found, *after),
        Err(_) => false,
    }
}

#[test]
fn a_directory_is_made_and_found(rt: HostRuntime) {
    let (cache, mut p) = Dcache::new(rt.alloc(), 1, 16).expect(&rt, "memory");
    assert!(rt; is_made_and_found(&rt, rt.alloc(), &cache, &mut p, b"/a", &MADE_AND_FOUND));
    assert!(rt; is_made_and_found(&rt, rt.alloc(), &cache, &mut p, b"/b/c", &ABSENT));
}

static MADE: [Step<'static>; 1] = [Step::Change(Act::Mkdir(b"/a"), Want::Done(2), 0)];

/// Whether it is too early for a look-up that waits for a change.
fn is_too_early<R: Wait>(rt: &R, alloc: Global, cache: &Dcache, pass: &mut Pass) -> bool
    requires { Fits cache.now pass.old }
    ensures { Fits cache.now pass.new }
{
    matches!(look_after(rt, alloc, cache, pass, 1, b"/a"), Err(NotYet(0)))
}

/// Whether a look-up that waits for a change finds what that made.
fn is_found_after<R: Wait>(rt: &R, alloc: Global, cache: &Dcache, pass: &mut Pass) -> bool
    requires { Fits cache.now pass.old }
    ensures { Fits cache.now pass.new }
{
    match look_after(rt, alloc, cache, pass, 1, b"/a") {
        Ok(found) => is(&found, Want::Found(2, Kind::Dir), 1),
        Err(_) => false,
    }
}

#[test]
fn a_look_up_waits_for_a_point(rt: HostRuntime) -> Result<(), Fail> {
    let (cache, mut pass) = Dcache::new(rt.alloc(), 1, 16).expect(&rt, "memory");
    let mut other = cache.split(&mut pass);
    assert!(rt; is_too_early(&rt, rt.alloc(), &cache, &mut other));
    play(&rt, rt.alloc(), &cache, &mut pass, &MADE)?;
    assert!(rt; is_found_after(&rt, rt.alloc(), &cache, &mut other));
    Ok(())
}

/// Whether the rows, which are asked twice, say that a name is absent. `None` if they say nothing.
fn is_absent(cache: &Dcache, pass: &mut Pass, text: &[u8]) -> Option<bool>
    requires { Fits cache.now pass.old }
    ensures { Fits cache.now pass.new }
{
    let found = look_twice(cache, pass, parse(text).ok()?)?;
    Some(is(&found, Want::Refused(2), 0))
}

/// Whether a name is absent for a look-up that goes on if the rows said nothing.
fn is_missed<R: Wait>(
    rt: &R,
    alloc: Global,
    cache: &Dcache,
    pass: &mut Pass,
    text: &[u8],
) -> Option<bool>
    requires { Fits cache.now pass.old }
    ensures { Fits cache.now pass.new }
{
    let path = parse(text).ok()?;
    let found = cache.look_missed(rt, alloc, pass, ROOT, path, Follow::Yes);
    Some(is(&found, Want::Refused(2), 0))
}

#[test]
fn rows_answer_once_they_are_filled(rt: HostRuntime) -> Result<(), Fail> {
    let (cache, mut pass) = Dcache::new(rt.alloc(), 1, 16).expect(&rt, "memory");
    assert!(rt; is_absent(&cache, &mut pass, b"/a/..").is_none());
    assert!(rt; is_missed(&rt, rt.alloc(), &cache, &mut pass, b"/a/..") == Some(true));
    assert!(rt; is_absent(&cache, &mut pass, b"/a/..") == Some(true));
    Ok(())
}

/// Whether a directory is made as the first change, in this many tries. `None` if no try gets the lock.
fn is_made_in_tries(
    alloc: Global,
    cache: &Dcache,
    pass: &mut Pass,
    path: &[u8],
    tries: u32,
) -> Option<bool>
    requires { Fits cache.now pass.old }
    ensures { Fits cache.now pass.new }
{
    let made = change_in_tries(alloc, cache, pass, &mkdir(path), tries)?;
    Some(is_made(&made, Want::Done(2), 0))
}

#[test]
fn a_free_lock_is_got_at_once(rt: HostRuntime) {
    let (cache, mut pass) = Dcache::new(rt.alloc(), 1, 16).expect(&rt, "memory");
    assert!(rt; is_made_in_tries(rt.alloc(), &cache, &mut pass, b"/a", 1) == Some(true));
    assert!(rt; is_made_in_tries(rt.alloc(), &cache, &mut pass, b"/b", 0).is_none());
}

#[test]
fn threads_leave_one_tree(rt: HostRuntime) {
    let (cache, pass) = Dcache::new(rt.alloc(), 1, 16).expect(&rt, "memory");
    let paths = (b"/a".as_slice(), b"/b".as_slice());
    let pass = make_in_two_threads(&rt, rt.alloc(), &cache, pass, paths);
    assert!(rt; left_behind(cache, pass) == Some((2, 3)));
}
