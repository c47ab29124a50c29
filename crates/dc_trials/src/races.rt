//! A directory is renamed, or exchanged with another, above a path that other threads look up.
//!
//! The file is made and unlinked while its directory has its other name, so its path under the first
//! name never leads to it: whatever the threads do, each answer is ENOENT.

ghost use Rattle.std.specs.Thread.{IsSync};
ghost use Rattle.dc_cache.specs.Passes.{Fits, IsChange};

use crate::answers::{create, mkdir, unlink};
use crate::passes::left_behind;
use dc_cache::{Call, Dcache, Fast, Flags, Follow, Pass, ROOT, Reply, Stamped, parse};
use std::alloc::{AllocError, Global};
use std::sync::Wait;
use std::test::Fail;
use std::thread::{Threads, join};

/// The names of a directory, the path of a file in it under both, and how it is renamed.
#[derive(Clone, Copy)]
struct Race<'a> {
    first: &'a [u8],
    second: &'a [u8],
    file: &'a [u8],
    file_then: &'a [u8],
    flags: Flags,
}

const EXCHANGE: Flags = Flags {
    no_replace: false,
    exchange: true,
};

fn rename_by<'a>(flags: Flags, old: &'a [u8], new: &'a [u8]) -> Call<'a>
    ensures { IsChange result }
{
    Call::Rename {
        base: ROOT,
        old,
        new,
        flags,
    }
}

/// Whether an answer is ENOENT.
fn is_absent(stamped: &Stamped) -> bool {
    stamped.reply == Reply::Refused(2)
}

/// Makes a change, and says whether it was made.
fn is_done<R: Wait>(rt: &R, alloc: Global, cache: &Dcache, pass: &mut Pass, call: &Call<'_>) -> bool
    requires pass { Fits cache.now pass.old }
    requires change { IsChange call.now }
    ensures { Fits cache.now pass.new }
{
    match cache.change(rt, alloc, pass, call) {
        Ok(made) => !matches!(made.reply, Reply::Refused(_)),
        Err(_) => false,
    }
}

/// Renames the directory, makes and unlinks the file, and renames the directory back, some times. It
/// says whether each change was made.
fn rename_there_and_back<R: Wait>(
    rt: &R,
    alloc: Global,
    cache: &Dcache,
    mut pass: Pass,
    first: &[u8],
    second: &[u8],
    file_then: &[u8],
    flags: Flags,
) -> (Pass, bool)
    requires { Fits cache.now pass }
    ensures { Fits cache.now result.0 }
{
    let mut all = true;
    for _ in 0..40 {
        all &= is_done(
            rt,
            alloc,
            cache,
            &mut pass,
            &rename_by(flags, first, second),
        );
        all &= is_done(rt, alloc, cache, &mut pass, &create(file_then));
        all &= is_done(rt, alloc, cache, &mut pass, &unlink(file_then));
        all &= is_done(
            rt,
            alloc,
            cache,
            &mut pass,
            &rename_by(flags, second, first),
        );
    }
    (pass, all)
}

/// Looks the file up by its first path, some times, and says whether each answer was ENOENT.
fn look_meanwhile<R: Wait>(
    rt: &R,
    alloc: Global,
    cache: &Dcache,
    mut pass: Pass,
    file: &[u8],
) -> (Pass, bool)
    requires { Fits cache.now pass }
    ensures { Fits cache.now result.0 }
{
    let Ok(path) = parse(file) else {
        return (pass, false);
    };
    let mut all = true;
    for _ in 0..200 {
        let found = match cache.look_fast(&mut pass, ROOT, path, Follow::Yes) {
            Fast::Done(found) => found,
            Fast::Again(_) => cache.look(rt, alloc, &mut pass, ROOT, file, Follow::Yes),
        };
        all &= is_absent(&found);
    }
    (pass, all)
}

/// Looks the file up in two threads, each with a pass of its own, and joins these.
fn look_in_two<R: Threads + Wait + Sync>(
    rt: &R,
    alloc: Global,
    cache: &Dcache,
    mut pass: Pass,
    file: &[u8],
) -> (Pass, bool)
    requires sync { IsSync R.row }
    requires pass { Fits cache.now pass }
    ensures { Fits cache.now result.0 }
{
    let other = cache.split(&mut pass);
    let ((mut pass, absent), (other, absent_too)) = join(
        rt,
        move || -> (Pass, bool)
            requires { Fits cache.now pass }
            ensures { Fits cache.entry.now result.0 }
        { look_meanwhile(rt, alloc, cache, pass, file) },
        move || -> (Pass, bool)
            requires { Fits cache.now other }
            ensures { Fits cache.entry.now result.0 }
        { look_meanwhile(rt, alloc, cache, other, file) },
    );
    cache.join(&mut pass, other);
    (pass, absent && absent_too)
}

/// One thread renames while two look up. It says whether each change was made and each answer ENOENT,
/// and joins the passes.
fn run<R: Threads + Wait + Sync>(
    rt: &R,
    alloc: Global,
    cache: &Dcache,
    mut pass: Pass,
    race: Race<'_>,
) -> (Pass, bool)
    requires sync { IsSync R.row }
    requires pass { Fits cache.now pass }
    ensures { Fits cache.now result.0 }
{
    let other = cache.split(&mut pass);
    let Race {
        first,
        second,
        file,
        file_then,
        flags,
    } = race;
    let ((mut pass, made), (other, absent)) = join(
        rt,
        move || -> (Pass, bool)
            requires { Fits cache.now pass }
            ensures { Fits cache.entry.now result.0 }
        { rename_there_and_back(rt, alloc, cache, pass, first, second, file_then, flags) },
        move || -> (Pass, bool)
            requires { Fits cache.now other }
            ensures { Fits cache.entry.now result.0 }
        { look_in_two(rt, alloc, cache, other, file) },
    );
    cache.join(&mut pass, other);
    (pass, made && absent)
}

/// The path of a file in the last of this many directories, each in the one before, below a directory of
/// the root.
fn file_below(alloc: Global, name: u8, depth: u32) -> Result<Vec<u8>, AllocError> {
    let mut path = Vec::from_slice(alloc, &[b'/', name])?;
    for _ in 0..depth {
        path.extend_from_slice(b"/d")?;
    }
    path.extend_from_slice(b"/f")?;
    Ok(path)
}

/// Makes each directory above a file, and says whether each was made.
fn make_above<R: Wait>(rt: &R, alloc: Global, cache: &Dcache, pass: &mut Pass, file: &[u8]) -> bool
    requires { Fits cache.now pass.old }
    ensures { Fits cache.now pass.new }
{
    let mut all = true;
    for end in 1..file.len() {
        if file[end] == b'/' {
            all &= is_done(rt, alloc, cache, pass, &mkdir(&file[..end]));
        }
    }
    all
}

/// Makes each directory above the file, and if there is to be an exchange those above its other path.
fn make_all<R: Wait>(
    rt: &R,
    alloc: Global,
    cache: &Dcache,
    pass: &mut Pass,
    race: &Race<'_>,
) -> bool
    requires { Fits cache.now pass.old }
    ensures { Fits cache.now pass.new }
{
    let made = make_above(rt, alloc, cache, pass, race.file);
    if race.flags.exchange {
        made & make_above(rt, alloc, cache, pass, race.file_then)
    } else {
        made
    }
}

/// Runs a race in a new cache. It tells how many changes were made and how many inodes live in the end, or
/// `None` if an answer was wrong or a change wasn't made.
fn run_anew<R: Threads + Wait + Sync>(rt: &R, alloc: Global, race: Race<'_>) -> Option<(u64, u64)>
    requires sync { IsSync R.row }
{
    let (cache, mut pass) = Dcache::new(alloc, 64, 1024).ok()?;
    let made = make_all(rt, alloc, &cache, &mut pass, &race);
    let (pass, right) = run(rt, alloc, &cache, pass, race);
    let ended = left_behind(cache, pass);
    if made && right { ended } else { None }
}

/// Races over a file this many directories below the one that is renamed. An exchange has as many below the
/// other one.
fn race_below<R: Threads + Wait + Sync>(
    rt: &R,
    alloc: Global,
    depth: u32,
    flags: Flags,
) -> Option<(u64, u64)>
    requires sync { IsSync R.row }
{
    let path = file_below(alloc, b'p', depth).ok()?;
    let path_then = file_below(alloc, b'q', depth).ok()?;
    let race = Race {
        first: b"/p",
        second: b"/q",
        file: path.as_slice(),
        file_then: path_then.as_slice(),
        flags,
    };
    run_anew(rt, alloc, race)
}

/// The file is this many directories below the one that is renamed.
#[test]
fn a_name_that_never_stands_is_never_found(rt: HostRuntime) -> Result<(), Fail> {
    for depth in [1, 4, 16, 64] {
        // The renamed directory and those below it, and four changes in each of forty rounds.
        let ended = race_below(&rt, rt.alloc(), depth, Flags::default());
        let depth = u64::from(depth);
        assert!(rt; ended == Some((1 + depth + 40 * 4, 2 + depth)), "{depth}");
    }
    Ok(())
}

/// Both directories are there at all times. The file is made and unlinked in the first one, while that has the
/// second one's name.
#[test]
fn a_name_that_an_exchange_never_makes_is_never_found(rt: HostRuntime) -> Result<(), Fail> {
    for depth in [1, 4, 16, 64] {
        let ended = race_below(&rt, rt.alloc(), depth, EXCHANGE);
        let made = 2 * (1 + u64::from(depth));
        assert!(rt; ended == Some((made + 40 * 4, 1 + made)), "{depth}");
    }
    Ok(())
}
