//! What the rows say of a `readlink`, beside its reply.

ghost use Rattle.dc_cache.specs.Passes.{Fits};

use crate::answers::{Want, is};
use crate::steps::{Act, Step, is_told, play};
use dc_cache::{Dcache, FastLink, Follow, Kind, Pass, ROOT, Why, parse};
use std::alloc::Global;
use std::sync::Wait;
use std::test::Fail;

/// Whether the rows refuse a `readlink` so, after three changes.
fn rows_refuse(cache: &Dcache, pass: &mut Pass, text: &[u8], number: u64) -> bool
    requires { Fits cache.now pass.old }
    ensures { Fits cache.now pass.new }
{
    let Ok(path) = parse(text) else {
        return false;
    };
    match cache.readlink_fast(pass, ROOT, path) {
        FastLink::Refused(told) => is(&told, Want::Refused(number), 3),
        _ => false,
    }
}

/// Whether the rows, once they are filled, and the tree refuse a `readlink` so, after three changes.
fn is_refused<R: Wait>(
    rt: &R,
    alloc: Global,
    cache: &Dcache,
    pass: &mut Pass,
    text: &[u8],
    number: u64,
) -> bool
    requires { Fits cache.now pass.old }
    ensures { Fits cache.now pass.new }
{
    cache.look(rt, alloc, pass, ROOT, text, Follow::No);
    let refused = rows_refuse(cache, pass, text, number);
    let told = cache.readlink(rt, alloc, pass, ROOT, text);
    refused && is_told(&told, Want::Refused(number), 3)
}

/// Whether each `readlink` is refused with its number.
fn are_refused<R: Wait>(
    rt: &R,
    alloc: Global,
    cache: &Dcache,
    pass: &mut Pass,
    rows: &[(&[u8], u64)],
) -> bool
    requires { Fits cache.now pass.old }
    ensures { Fits cache.now pass.new }
{
    let mut all = true;
    for (text, number) in rows {
        all &= is_refused(rt, alloc, cache, pass, text, *number);
    }
    all
}

/// A directory, a file in it, and a link to the directory.
static THREE: [Step<'static>; 3] = [
    Step::Change(Act::Mkdir(b"/d"), Want::Done(2), 0),
    Step::Change(Act::Create(b"/d/f"), Want::Done(3), 1),
    Step::Change(Act::Symlink(b"d", b"/s"), Want::Done(4), 2),
];

/// Paths of what is no link there, and the number of the refusal.
static NO_LINKS: [(&[u8], u64); 6] = [
    (b"/", 22),
    (b"/d", 22),
    (b"/s/f", 22),
    (b"/s/", 22),
    (b"/x", 2),
    (b"/d/f/", 20),
];

#[test]
fn rows_tell_what_is_no_link(rt: HostRuntime) -> Result<(), Fail> {
    let (cache, mut p) = Dcache::new(rt.alloc(), 16, 16).expect(&rt, "memory");
    play(&rt, rt.alloc(), &cache, &mut p, &THREE)?;
    assert!(rt; are_refused(&rt, rt.alloc(), &cache, &mut p, &NO_LINKS));
    Ok(())
}

static ONE_LINK: [Step<'static>; 1] = [Step::Change(Act::Symlink(b"d", b"/s"), Want::Done(2), 0)];

static LOOKED_UP: [Step<'static>; 1] = [Step::Look(b"/s", Follow::No, THE_LINK, 1)];

const THE_LINK: Want<'static> = Want::Found(2, Kind::Link);

/// Whether the rows say that a link is one after one change, or `None` if they say nothing of it.
fn is_link(cache: &Dcache, pass: &mut Pass, text: &[u8]) -> Option<bool>
    requires { Fits cache.now pass.old }
    ensures { Fits cache.now pass.new }
{
    match cache.readlink_fast(pass, ROOT, parse(text).ok()?) {
        FastLink::Link(told) => Some(is(&told, THE_LINK, 1)),
        FastLink::Again(Why::Miss(0)) => None,
        _ => Some(false),
    }
}

#[test]
fn rows_tell_a_link_from_what_is_none(rt: HostRuntime) -> Result<(), Fail> {
    let (cache, mut p) = Dcache::new(rt.alloc(), 16, 16).expect(&rt, "memory");
    play(&rt, rt.alloc(), &cache, &mut p, &ONE_LINK)?;
    assert!(rt; is_link(&cache, &mut p, b"/s").is_none());
    play(&rt, rt.alloc(), &cache, &mut p, &LOOKED_UP)?;
    assert!(rt; is_link(&cache, &mut p, b"/s") == Some(true));
    Ok(())
}
