//! The ways in which the cache answers a call: each that waits, and each that tries for the lock first.

ghost use Rattle.dc_cache.specs.Passes.{Fits, IsChange};

use crate::tally::Tally;
use dc_cache::{Dcache, Fast, Pass, parse};
use dc_names::NoMemory;
use dc_plain::{Call, Follow, Stamped};
use std::alloc::Global;
use std::sync::Wait;

/// How the lock is asked for if the rows don't answer.
#[derive(Clone, Copy)]
pub enum Way {
    /// The call waits for it.
    Waits,
    /// The call tries for it, and waits only if it is taken.
    Tries,
    /// A look-up fills and pins the rows of its path one by one. Other calls wait.
    Fills,
    /// A look-up fills all rows of its path under one hold of the lock, for which it tries first. Other
    /// calls wait.
    FillsPath,
}

/// What a look-up is asked.
#[derive(Clone, Copy)]
struct Asked<'a> {
    base: u64,
    path: &'a [u8],
    follow: Follow,
}

/// Looks a path up by the rows alone, and in one way by rows that are filled for it.
fn look_by_rows<R: Wait>(
    rt: &R,
    alloc: Global,
    cache: &Dcache,
    pass: &mut Pass,
    asked: Asked<'_>,
    way: Way,
    tally: &mut Tally,
) -> Option<Stamped>
    requires { Fits cache.now pass.old }
    ensures { Fits cache.now pass.new }
{
    let Asked { base, path, follow } = asked;
    let text = parse(path).ok()?;
    match cache.look_fast(pass, base, text, follow) {
        Fast::Done(found) => {
            tally.count_hit();
            return Some(found);
        }
        Fast::Again(why) => tally.count_cause(&why),
    }
    if let Way::Fills = way
        && let Fast::Done(found) = cache.look_counted(rt, alloc, pass, base, text, follow)
    {
        return Some(found);
    }
    None
}

/// Looks a path up, by the rows alone if they answer.
fn look<R: Wait>(
    rt: &R,
    alloc: Global,
    cache: &Dcache,
    pass: &mut Pass,
    asked: Asked<'_>,
    way: Way,
    tally: &mut Tally,
) -> Stamped
    requires { Fits cache.now pass.old }
    ensures { Fits cache.now pass.new }
{
    if let Some(found) = look_by_rows(rt, alloc, cache, pass, asked, way, tally) {
        return found;
    }
    let Asked { base, path, follow } = asked;
    if let Way::FillsPath = way {
        if let Some(found) = cache.try_resolve(alloc, pass, base, path, follow) {
            return found;
        }
        tally.count_held();
        return cache.resolve(rt, alloc, pass, base, path, follow);
    }
    if let Way::Tries = way {
        match cache.try_look(alloc, pass, base, path, follow) {
            Some(found) => return found,
            None => tally.count_held(),
        }
    }
    cache.look(rt, alloc, pass, base, path, follow)
}

/// Counts an inode's names or entries.
fn stat<R: Wait>(
    rt: &R,
    cache: &Dcache,
    pass: &mut Pass,
    base: u64,
    path: &[u8],
    way: Way,
    tally: &mut Tally,
) -> Stamped
    requires { Fits cache.now pass.old }
    ensures { Fits cache.now pass.new }
{
    if let Way::Tries = way {
        match cache.try_stat(pass, base, path) {
            Some(counted) => return counted,
            None => tally.count_held(),
        }
    }
    cache.stat(rt, pass, base, path)
}

/// Reads a link's text.
fn readlink<R: Wait>(
    rt: &R,
    alloc: Global,
    cache: &Dcache,
    pass: &mut Pass,
    base: u64,
    path: &[u8],
    way: Way,
    tally: &mut Tally,
) -> Result<Stamped, NoMemory>
    requires { Fits cache.now pass.old }
    ensures { Fits cache.now pass.new }
{
    if let Way::Tries = way {
        match cache.try_readlink(alloc, pass, base, path) {
            Some(told) => return told,
            None => tally.count_held(),
        }
    }
    cache.readlink(rt, alloc, pass, base, path)
}

/// Reads the names in a directory.
fn list<R: Wait>(
    rt: &R,
    alloc: Global,
    cache: &Dcache,
    pass: &mut Pass,
    base: u64,
    path: &[u8],
    way: Way,
    tally: &mut Tally,
) -> Result<Stamped, NoMemory>
    requires { Fits cache.now pass.old }
    ensures { Fits cache.now pass.new }
{
    if let Way::Tries = way {
        match cache.try_list(alloc, pass, base, path) {
            Some(told) => return told,
            None => tally.count_held(),
        }
    }
    cache.list(rt, alloc, pass, base, path)
}

/// Makes a change. The tree isn't altered so often that it could be spent.
fn change<R: Wait>(
    rt: &R,
    alloc: Global,
    cache: &Dcache,
    pass: &mut Pass,
    call: &Call<'_>,
    way: Way,
    tally: &mut Tally,
) -> Result<Stamped, NoMemory>
    requires pass { Fits cache.now pass.old }
    requires change { IsChange call.now }
    ensures { Fits cache.now pass.new }
{
    if let Way::Tries = way {
        match cache.try_change(alloc, pass, call) {
            Some(made) => return made.map_err(|_| NoMemory),
            None => tally.count_held(),
        }
    }
    cache.change(rt, alloc, pass, call).map_err(|_| NoMemory)
}

/// Empties rows.
pub fn shrink<R: Wait>(
    rt: &R,
    cache: &Dcache,
    pass: &mut Pass,
    most: u64,
    way: Way,
    tally: &mut Tally,
)
    requires { Fits cache.now pass.old }
    ensures { Fits cache.now pass.new }
{
    if let Way::Tries = way {
        match cache.try_shrink(pass, most) {
            Some(rows) => return tally.count_emptied(rows),
            None => tally.count_held(),
        }
    }
    tally.count_emptied(cache.shrink(rt, pass, most));
}

/// Answers a call in a way.
pub fn answer<R: Wait>(
    rt: &R,
    alloc: Global,
    cache: &Dcache,
    pass: &mut Pass,
    call: &Call<'_>,
    way: Way,
    tally: &mut Tally,
) -> Result<Stamped, NoMemory>
    requires { Fits cache.now pass.old }
    ensures { Fits cache.now pass.new }
{
    match *call {
        Call::Look { base, path, follow } => {
            let asked = Asked { base, path, follow };
            Ok(look(rt, alloc, cache, pass, asked, way, tally))
        }
        Call::Stat { base, path } => Ok(stat(rt, cache, pass, base, path, way, tally)),
        Call::Readlink { base, path } => readlink(rt, alloc, cache, pass, base, path, way, tally),
        Call::List { base, path } => list(rt, alloc, cache, pass, base, path, way, tally),
        Call::Mkdir { .. }
        | Call::Create { .. }
        | Call::Link { .. }
        | Call::Symlink { .. }
        | Call::Unlink { .. }
        | Call::Rmdir { .. }
        | Call::Rename { .. } => change(rt, alloc, cache, pass, call, way, tally),
    }
}
