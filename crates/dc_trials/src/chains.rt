//! The longest chain of links that is followed, and the longest name and text that a row has room for.

ghost use Rattle.dc_cache.specs.Passes.{Fits};
ghost use Rattle.std.specs.Prelude.{◌<◌};
ghost use Rattle.std.specs.Thread.{IsSync};

use crate::answers::{Want, is_made, symlink};
use crate::steps::{Act, Step, first_other, play, play_anew};
use dc_cache::{Dcache, Follow, Kind, Pass, Why};
use dc_names::{MOST_LINKS, NAME_MAX};
use std::alloc::Global;
use std::sync::Wait;
use std::test::Fail;
use std::thread;
use std::thread::{Builder, Threads};

/// How many links the chain has.
const LINKS: u8 = MOST_LINKS as u8;

/// The point after the chain and two directories are made.
const MADE: u64 = 2 + MOST_LINKS;

/// The path of a link of the chain, or of the directory that it ends in.
fn path_of(number: u8) -> [u8; 4]
    requires { number < 100 }
{
    [b'/', b'l', b'0' + number / 10, b'0' + number % 10]
}

/// A text that leads this way to a name of the chain: as many bytes as a row has room for.
fn text_to(way: [u8; 5], number: u8) -> [u8; NAME_MAX]
    requires { number < 100 }
{
    let mut text = [b'/'; NAME_MAX];
    text[..5].copy_from_slice(&way);
    text[NAME_MAX - 4..].copy_from_slice(&path_of(number));
    text
}

/// Makes a link of the chain, and says whether it was made.
fn is_linked<R: Wait>(
    rt: &R,
    alloc: Global,
    cache: &Dcache,
    pass: &mut Pass,
    way: [u8; 5],
    number: u8,
) -> bool
    requires pass { Fits cache.now pass.old }
    requires few { number < 99 }
    ensures { Fits cache.now pass.new }
{
    let (text, path) = (text_to(way, number + 1), path_of(number));
    let made = cache.change(rt, alloc, pass, &symlink(&text, &path));
    let before = 2 + u64::from(number);
    is_made(&made, Want::Done(before + 2), before)
}

/// Makes each link of the chain, and says whether each was made.
fn is_chained<R: Wait>(rt: &R, alloc: Global, cache: &Dcache, pass: &mut Pass, way: [u8; 5]) -> bool
    requires { Fits cache.now pass.old }
    ensures { Fits cache.now pass.new }
{
    let mut all = true;
    for number in 0..LINKS {
        all &= is_linked(rt, alloc, cache, pass, way, number);
    }
    all
}

const END: Want<'static> = Want::Found(3, Kind::Dir);

const ABOVE: Want<'static> = Want::Found(1, Kind::Dir);

static LOOKS: [Step<'static>; 7] = [
    Step::Stat(b"/l00", Want::Stat(3, Kind::Dir, 0), MADE),
    Step::Again(b"/l00", Why::Miss(0)),
    Step::Look(b"/l00", Follow::Yes, END, MADE),
    Step::Fast(b"/l00", END, MADE),
    Step::Counted(b"/l00", END, MADE),
    Step::Look(b"/l00/..", Follow::Yes, ABOVE, MADE),
    Step::Fast(b"/l00/..", ABOVE, MADE),
];

/// Looks the end of the chain up, and what is above it, by each kind of walk.
fn look<R: Wait>(rt: &R, alloc: Global, cache: &Dcache, pass: &mut Pass) -> Option<usize>
    requires { Fits cache.now pass.old }
    ensures { Fits cache.now pass.new }
{
    first_other(rt, alloc, cache, pass, &LOOKS)
}

/// Looks up as `look` does, in a thread with the smallest stack that there is. `None` if no thread can be
/// started.
fn look_in_a_thread<R: Threads + Wait + Sync>(
    rt: &R,
    alloc: Global,
    cache: &Dcache,
    pass: &mut Pass,
) -> Option<Option<usize>>
    requires pass { Fits cache.now pass.old }
    requires sync { IsSync R.row }
{
    thread::scope(
        thread::scope_env(),
        rt,
        move |scope| -> Option<Option<usize>>
            requires { IsSync R.row × Fits cache.now pass.now }
        {
            let started = Builder::new().stack_size(1).spawn_scoped(
                scope,
                move || -> Option<usize>
                    requires { Fits cache.now pass.now }
                { look(rt, alloc, cache, pass) },
            );
            Some(started.ok()?.join(rt))
        },
    )
}

static TWO_DIRECTORIES: [Step<'static>; 2] = [
    Step::Change(Act::Mkdir(b"/d"), Want::Done(2), 0),
    Step::Change(Act::Mkdir(b"/l40"), Want::Done(3), 1),
];

/// Makes the chain in a new cache, by links that lead this way, and looks its end up in a thread. It says
/// whether all links were made and all look-ups answered.
fn is_followed<R: Threads + Wait + Sync>(
    rt: &R,
    alloc: Global,
    cache: &Dcache,
    pass: &mut Pass,
    way: [u8; 5],
) -> Result<bool, Fail>
    requires pass { Fits cache.now pass.old }
    requires sync { IsSync R.row }
{
    play(rt, alloc, cache, pass, &TWO_DIRECTORIES)?;
    let made = is_chained(rt, alloc, cache, pass, way);
    Ok(made && look_in_a_thread(rt, alloc, cache, pass) == Some(None))
}

/// As many texts are walked one within another as links are followed, and each is a local of its call.
/// They lead on in the directory of the links, or through one beside them.
// `rt try` doesn't optimise, so under it the walks by rows run out of this stack of 128 KiB (256 are enough).
// As `rt test` and `rt ci` build this test, they need 48 (measured).
#[test]
fn the_longest_chain_fits_on_the_smallest_stack(rt: HostRuntime) -> Result<(), Fail> {
    let alloc = rt.alloc();
    for way in [*b"././/", *b"d/../"] {
        let (cache, mut pass) = Dcache::new(alloc, 1024, 64).expect(&rt, "memory");
        assert!(rt; is_followed(&rt, alloc, &cache, &mut pass, way)?);
    }
    Ok(())
}

const FILE: Want<'static> = Want::Found(2, Kind::File);

/// The longest name, in the root.
const LONGEST: &[u8] = &[b'n'; NAME_MAX];

static OF_THE_LONGEST: [Step<'static>; 6] = [
    Step::Change(Act::Create(LONGEST), Want::Done(2), 0),
    Step::Change(Act::Symlink(LONGEST, b"/t"), Want::Done(3), 1),
    Step::Look(LONGEST, Follow::Yes, FILE, 2),
    Step::Fast(LONGEST, FILE, 2),
    Step::Look(b"/t", Follow::Yes, FILE, 2),
    Step::Fast(b"/t", FILE, 2),
];

/// The longest name stands in a row, and so does a link's text as long, which is that name here.
#[test]
fn the_longest_name_and_text_stand_in_rows(rt: HostRuntime) -> Result<(), Fail> {
    play_anew(&rt, rt.alloc(), 256, 16, &OF_THE_LONGEST)
}
