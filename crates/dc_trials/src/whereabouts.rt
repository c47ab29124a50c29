//! Where directories are, as the cache tells it, and a hold in numbers and bytes.

ghost use Rattle.dc_cache.specs.Passes.{Fits};

use crate::answers::{Want, mkdir};
use crate::steps::{Act, Step, play};
use dc_cache::{Dcache, PATH_MAX, Pass, ROOT, Refusal, Whereabouts};
use dc_hold::{Found, Hold, Status, put_path, told_change, told_where};
use std::alloc::Global;
use std::sync::Wait;
use std::test::Fail;

/// Directories 2 and 3, of which the first gets another name, and the file 4.
static MOVED: [Step<'static>; 4] = [
    Step::Change(Act::Mkdir(b"/a"), Want::Done(2), 0),
    Step::Change(Act::Mkdir(b"/a/b"), Want::Done(3), 1),
    Step::Change(Act::Rename(b"/a", b"/c"), Want::Unit, 2),
    Step::Change(Act::Create(b"/c/f"), Want::Done(4), 3),
];

/// Numbers, and the paths at which they are then, or why they have none.
static PLACES: [(u64, Result<&[u8], Refusal>); 5] = [
    (ROOT, Ok(b"/")),
    (2, Ok(b"/c")),
    (3, Ok(b"/c/b")),
    (4, Err(Refusal::NotFound)),
    (5, Err(Refusal::NotFound)),
];

/// Whether after four changes this path ends a buffer, or this refusal was told.
fn is_told(buffer: &[u8; PATH_MAX], told: Whereabouts, want: Result<&[u8], Refusal>) -> bool {
    let same = match told.start {
        Ok(start) => match want {
            Ok(path) => start < PATH_MAX && buffer[start..] == path[..],
            Err(_) => false,
        },
        Err(refusal) => want == Err(refusal),
    };
    same && told.at == 4
}

/// Whether a number is at its place, by a call that waits.
fn is_at<R: Wait>(
    rt: &R,
    cache: &Dcache,
    pass: &mut Pass,
    number: u64,
    want: Result<&[u8], Refusal>,
) -> bool
    requires { Fits cache.now pass.old }
    ensures { Fits cache.now pass.new }
{
    let mut buffer = [0; PATH_MAX];
    let told = cache.path_of(rt, pass, number, &mut buffer);
    is_told(&buffer, told, want)
}

/// Whether a number is at its place, by a try, while the lock is free.
fn is_tried_at(cache: &Dcache, pass: &mut Pass, number: u64, want: Result<&[u8], Refusal>) -> bool
    requires { Fits cache.now pass.old }
    ensures { Fits cache.now pass.new }
{
    let mut buffer = [0; PATH_MAX];
    match cache.try_path_of(pass, number, &mut buffer) {
        Some(told) => is_told(&buffer, told, want),
        None => false,
    }
}

/// Whether each number is at its place.
fn are_there<R: Wait>(rt: &R, cache: &Dcache, pass: &mut Pass) -> bool
    requires { Fits cache.now pass.old }
    ensures { Fits cache.now pass.new }
{
    let mut all = true;
    for (number, want) in PLACES.iter() {
        all &= is_at(rt, cache, pass, *number, *want);
        all &= is_tried_at(cache, pass, *number, *want);
    }
    all
}

#[test]
fn a_directory_is_told_where_it_is(rt: HostRuntime) -> Result<(), Fail> {
    let (cache, mut p) = Dcache::new(rt.alloc(), 16, 16).expect(&rt, "memory");
    play(&rt, rt.alloc(), &cache, &mut p, &MOVED)?;
    assert!(rt; are_there(&rt, &cache, &mut p));
    Ok(())
}

/// Makes the directory 2.
fn is_made(alloc: Global, hold: &mut Hold) -> bool {
    told_change(&hold.try_change(alloc, &mkdir(b"/ab"))).status == Status::Done
}

/// Whether a hold tells the directory's path in numbers and from its buffer's front on.
fn is_put(hold: &mut Hold) -> bool {
    let mut buffer = [0; PATH_MAX];
    let tried = hold.try_path_of(2, &mut buffer);
    put_path(&mut buffer, tried);
    let told = told_where(2, tried);
    let want = Found {
        number: 2,
        count: 3,
        at: 1,
        kind: 1,
        why: 0,
    };
    let path: &[u8] = b"/ab";
    told.status == Status::Done && told.found == want && buffer[..3] == path[..]
}

/// Whether a hold refuses a number that nothing has, and its buffer stays.
fn is_refused(hold: &mut Hold) -> bool {
    let mut buffer = [0; PATH_MAX];
    let tried = hold.try_path_of(3, &mut buffer);
    put_path(&mut buffer, tried);
    told_where(3, tried).status == Status::Refused(2)
}

#[test]
fn a_hold_tells_a_path_in_bytes(rt: HostRuntime) {
    let mut hold = Hold::new(rt.alloc(), 16, 16, 32).expect(&rt, "memory");
    assert!(rt; is_made(rt.alloc(), &mut hold) && is_put(&mut hold) && is_refused(&mut hold));
}
