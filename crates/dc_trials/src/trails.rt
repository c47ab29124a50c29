//! What look-ups pass through, on the tree of a cache, and as a hold tells it in numbers.

ghost use Rattle.dc_cache.specs.Passes.{Fits};

use crate::answers::{Want, is};
use crate::steps::{Act, Step, call_of, play};
use dc_cache::{Dcache, FastAlong, Follow, Kind, Pass, ROOT, TooFewPlaces, Why, parse};
use dc_hold::{Found, Hold, Status, told_along, told_change};
use std::alloc::Global;
use std::sync::Wait;
use std::test::Fail;

/// Two directories, a file in the second, and links to each other's place.
static FIVE: [Step<'static>; 5] = [
    Step::Change(Act::Mkdir(b"/a"), Want::Done(2), 0),
    Step::Change(Act::Mkdir(b"/a/b"), Want::Done(3), 1),
    Step::Change(Act::Create(b"/a/b/c"), Want::Done(4), 2),
    Step::Change(Act::Symlink(b"b", b"/a/r"), Want::Done(5), 3),
    Step::Change(Act::Symlink(b"/a", b"/l"), Want::Done(6), 4),
];

/// A starting directory, a path, its answer, and its trail.
static TRAILS: [(u64, &[u8], Want<'static>, &[u64]); 8] = [
    (ROOT, b"/a/b/c", Want::Found(4, Kind::File), &[1, 2, 3]),
    (ROOT, b"/a/x/c", Want::Refused(2), &[1, 2]),
    (ROOT, b"/a/b/c/d", Want::Refused(20), &[1, 2, 3]),
    (ROOT, b"/a/r/c", Want::Found(4, Kind::File), &[1, 2, 3]),
    (ROOT, b"/l/b/..", Want::Found(2, Kind::Dir), &[1, 2, 3]),
    (3, b"../b", Want::Found(3, Kind::Dir), &[3, 2]),
    (9, b"c", Want::Refused(2), &[9]),
    (ROOT, b"/", Want::Found(1, Kind::Dir), &[]),
];

/// Whether a look-up has this answer after five changes, and this trail; with a place less it has none.
fn is_along(
    cache: &Dcache,
    pass: &mut Pass,
    base: u64,
    text: &[u8],
    want: Want<'_>,
    trail: &[u64],
) -> bool
    requires { Fits cache.now pass.old }
    ensures { Fits cache.now pass.new }
{
    let Ok(path) = parse(text) else {
        return false;
    };
    let mut numbers = [77; 8];
    let told = cache.try_look_along(pass, base, path, Follow::Yes, &mut numbers);
    let is_told = match told {
        Some(Ok((found, many))) => is(&found, want, 5) && many == trail.len(),
        _ => false,
    };
    let mut fewer = [0; 8];
    let places = trail.len().saturating_sub(1);
    let lacking = cache.try_look_along(pass, base, path, Follow::Yes, &mut fewer[..places.min(8)]);
    let is_refused = trail.is_empty() || matches!(lacking, Some(Err(TooFewPlaces)));
    is_told && is_refused && trail.len() <= 8 && &numbers[..trail.len().min(8)] == trail
}

/// Whether all of them are so.
fn are_along(cache: &Dcache, pass: &mut Pass) -> bool
    requires { Fits cache.now pass.old }
    ensures { Fits cache.now pass.new }
{
    let mut all = true;
    for (base, text, want, trail) in TRAILS.iter() {
        all &= is_along(cache, pass, *base, text, *want, trail);
    }
    all
}

/// Whether rows give a look-up this answer and this trail, once they are filled; and that it is had waiting
/// all the same. With a place less it has none.
fn is_along_by_rows<R: Wait>(
    rt: &R,
    alloc: Global,
    cache: &Dcache,
    pass: &mut Pass,
    row: &(u64, &[u8], Want<'_>, &[u64]),
) -> bool
    requires { Fits cache.now pass.old }
    ensures { Fits cache.now pass.new }
{
    let (base, text, want, trail) = *row;
    let Ok(path) = parse(text) else {
        return false;
    };
    // It fills the rows, by which the look-up without the lock answers then.
    let mut first = [99; 8];
    let is_first = match cache.resolve_along(rt, alloc, pass, base, path, Follow::Yes, &mut first) {
        Ok((found, many)) => is(&found, want, 5) && many == trail.len(),
        Err(TooFewPlaces) => false,
    };
    let mut numbers = [77; 8];
    let is_told = match cache.look_fast_along(pass, base, path, Follow::Yes, &mut numbers) {
        FastAlong::Done(found, many) => is(&found, want, 5) && many == trail.len(),
        FastAlong::Again(_) | FastAlong::TooFewPlaces => false,
    };
    let mut again = [88; 8];
    let is_had = match cache.resolve_along(rt, alloc, pass, base, path, Follow::Yes, &mut again) {
        Ok((found, many)) => is(&found, want, 5) && many == trail.len(),
        Err(TooFewPlaces) => false,
    };
    let many = trail.len().min(8);
    let fewer = &mut [0; 8][..many.saturating_sub(1)];
    let lacking = cache.look_fast_along(pass, base, path, Follow::Yes, fewer);
    let is_refused = many == 0 || matches!(lacking, FastAlong::TooFewPlaces);
    is_first
        && is_told
        && is_had
        && is_refused
        && &numbers[..many] == trail
        && &again[..many] == trail
}

/// Whether all of them are so, by rows.
fn are_along_by_rows<R: Wait>(rt: &R, alloc: Global, cache: &Dcache, pass: &mut Pass) -> bool
    requires { Fits cache.now pass.old }
    ensures { Fits cache.now pass.new }
{
    let mut all = true;
    for row in TRAILS.iter() {
        all &= is_along_by_rows(rt, alloc, cache, pass, row);
    }
    all
}

#[test]
fn rows_tell_trails(rt: HostRuntime) -> Result<(), Fail> {
    let (cache, mut p) = Dcache::new(rt.alloc(), 64, 8).expect(&rt, "memory");
    play(&rt, rt.alloc(), &cache, &mut p, &FIVE)?;
    let mut places = [0; 8];
    let path = parse(b"/a/b/c").expect(&rt, "a path");
    let cold = cache.look_fast_along(&mut p, ROOT, path, Follow::Yes, &mut places);
    assert!(rt; matches!(cold, FastAlong::Again(Why::Miss(0))));
    assert!(rt; are_along_by_rows(&rt, rt.alloc(), &cache, &mut p));
    Ok(())
}

#[test]
fn look_ups_tell_their_trails(rt: HostRuntime) -> Result<(), Fail> {
    let (cache, mut p) = Dcache::new(rt.alloc(), 1, 8).expect(&rt, "memory");
    play(&rt, rt.alloc(), &cache, &mut p, &FIVE)?;
    assert!(rt; are_along(&cache, &mut p));
    Ok(())
}

/// A path on a hold, how it ends after two changes, the number and kind that it finds, and its trail.
static HELD: [(&[u8], Status, u64, u32, &[u64]); 5] = [
    (b"/ab/f", Status::Done, 3, 2, &[1, 2]),
    (b"/ab/../ab", Status::Done, 2, 1, &[1, 2]),
    (b"/ab/g", Status::Refused(2), 0, 0, &[1, 2]),
    (b"", Status::Refused(2), 0, 0, &[]),
    (b"/\0", Status::Refused(22), 0, 0, &[]),
];

/// Whether a hold tells this of a path in numbers, and its trail. What lies behind the trail stays.
fn is_held_along(
    alloc: Global,
    hold: &mut Hold,
    path: &[u8],
    status: Status,
    number: u64,
    kind: u32,
    trail: &[u64],
) -> bool {
    let mut numbers = [77; 3];
    let told = told_along(&hold.try_look_along(alloc, ROOT, path, Follow::Yes, &mut numbers));
    let want = Found {
        number,
        count: trail.len() as u64,
        at: 2,
        kind,
        why: 0,
    };
    let many = trail.len().min(3);
    told.status == status && told.found == want && &numbers[..many] == trail && numbers[2] == 77
}

/// Whether a hold has no place for a second directory, and says nothing else.
fn has_no_room(alloc: Global, hold: &mut Hold) -> bool {
    let told = told_along(&hold.try_look_along(alloc, ROOT, b"/ab/f", Follow::Yes, &mut [0]));
    let nothing = Found {
        number: 0,
        count: 0,
        at: 0,
        kind: 0,
        why: 0,
    };
    told.status == Status::NoRoom && told.status.number() == -9 && told.found == nothing
}

/// Whether a hold makes a directory, and a file there.
fn are_made(alloc: Global, hold: &mut Hold) -> bool {
    let mut all = true;
    for act in [Act::Mkdir(b"/ab"), Act::Create(b"/ab/f")] {
        all &= told_change(&hold.try_change(alloc, &call_of(act))).status == Status::Done;
    }
    all
}

#[test]
fn a_hold_tells_trails_in_numbers(rt: HostRuntime) {
    let mut hold = Hold::new(rt.alloc(), 16, 16, 32).expect(&rt, "memory");
    assert!(rt; are_made(rt.alloc(), &mut hold));
    for (path, status, number, kind, trail) in HELD.iter() {
        assert!(rt; is_held_along(rt.alloc(), &mut hold, path, *status, *number, *kind, trail));
    }
    assert!(rt; has_no_room(rt.alloc(), &mut hold));
}
