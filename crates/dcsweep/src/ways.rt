//! The calls of a cache that a trial may be made of.

ghost use Rattle.dc_cache.specs.Passes.{Fits, IsChange};

use dc_cache::{Dcache, Entries, Fast, Pass, Why, parse};
use dc_plain::{Call, Stamped};
use std::alloc::Global;
use std::sync::Wait;

/// How the call of a trial is made.
#[derive(Clone, Copy)]
pub enum Way {
    /// It waits for the lock.
    Waits,
    /// It tries for the lock.
    Tries,
    /// A look-up by rows that are filled and pinned.
    Fills,
    /// A look-up that fills the rows of its whole path under one hold of the lock.
    FillsPath,
    /// The same, which tries for the lock.
    TriesPath,
    /// A look-up that tells its trail and fills the rows of its whole path under one hold of the lock.
    Along,
    /// The same, which tries for the lock.
    TriesAlong,
    /// A look-up for who has just asked the rows, which fills them too.
    Missed,
    /// A page of a directory is told.
    Pages,
    /// Before it come calls that take no memory.
    Free,
}

impl Way {
    /// The way with this name.
    pub fn of(name: &str) -> Option<Way> {
        match name {
            "cache" => Some(Way::Waits),
            "try" => Some(Way::Tries),
            "counted" => Some(Way::Fills),
            "filled" => Some(Way::FillsPath),
            "tried" => Some(Way::TriesPath),
            "along" => Some(Way::Along),
            "tried_along" => Some(Way::TriesAlong),
            "missed" => Some(Way::Missed),
            "pages" => Some(Way::Pages),
            "free" => Some(Way::Free),
            _ => None,
        }
    }
}

/// Why a call wasn't answered.
#[derive(Clone, Copy, PartialEq, Eq)]
pub enum Unanswered {
    /// Memory was refused.
    Memory,
    /// It has no cause in one thread.
    Strange,
}

/// Makes a change.
fn change<R: Wait>(
    rt: &R,
    alloc: Global,
    cache: &Dcache,
    pass: &mut Pass,
    call: &Call<'_>,
) -> Result<Stamped, Unanswered>
    requires pass { Fits cache.now pass.old }
    requires change { IsChange call.now }
    ensures { Fits cache.now pass.new }
{
    cache
        .change(rt, alloc, pass, call)
        .map_err(|_| Unanswered::Memory)
}

/// Answers a call that waits for the lock.
pub fn answer<R: Wait>(
    rt: &R,
    alloc: Global,
    cache: &Dcache,
    pass: &mut Pass,
    call: &Call<'_>,
) -> Result<Stamped, Unanswered>
    requires { Fits cache.now pass.old }
    ensures { Fits cache.now pass.new }
{
    match *call {
        Call::Look { base, path, follow } => Ok(cache.look(rt, alloc, pass, base, path, follow)),
        Call::Stat { base, path } => Ok(cache.stat(rt, pass, base, path)),
        Call::Readlink { base, path } => cache
            .readlink(rt, alloc, pass, base, path)
            .map_err(|_| Unanswered::Memory),
        Call::List { base, path } => cache
            .list(rt, alloc, pass, base, path)
            .map_err(|_| Unanswered::Memory),
        Call::Mkdir { .. }
        | Call::Create { .. }
        | Call::Link { .. }
        | Call::Symlink { .. }
        | Call::Unlink { .. }
        | Call::Rmdir { .. }
        | Call::Rename { .. } => change(rt, alloc, cache, pass, call),
    }
}

/// Makes a change, if the lock is free.
fn try_change(
    alloc: Global,
    cache: &Dcache,
    pass: &mut Pass,
    call: &Call<'_>,
) -> Option<Result<Stamped, Unanswered>>
    requires pass { Fits cache.now pass.old }
    requires change { IsChange call.now }
    ensures { Fits cache.now pass.new }
{
    let made = cache.try_change(alloc, pass, call)?;
    Some(made.map_err(|_| Unanswered::Memory))
}

/// Answers a call, if the lock is free.
fn try_answer(
    alloc: Global,
    cache: &Dcache,
    pass: &mut Pass,
    call: &Call<'_>,
) -> Option<Result<Stamped, Unanswered>>
    requires { Fits cache.now pass.old }
    ensures { Fits cache.now pass.new }
{
    match *call {
        Call::Look { base, path, follow } => {
            Some(Ok(cache.try_look(alloc, pass, base, path, follow)?))
        }
        Call::Stat { base, path } => Some(Ok(cache.try_stat(pass, base, path)?)),
        Call::Readlink { base, path } => {
            let told = cache.try_readlink(alloc, pass, base, path)?;
            Some(told.map_err(|_| Unanswered::Memory))
        }
        Call::List { base, path } => {
            let told = cache.try_list(alloc, pass, base, path)?;
            Some(told.map_err(|_| Unanswered::Memory))
        }
        Call::Mkdir { .. }
        | Call::Create { .. }
        | Call::Link { .. }
        | Call::Symlink { .. }
        | Call::Unlink { .. }
        | Call::Rmdir { .. }
        | Call::Rename { .. } => try_change(alloc, cache, pass, call),
    }
}

/// Answers a look-up by rows that are filled and pinned.
fn count<R: Wait>(
    rt: &R,
    alloc: Global,
    cache: &Dcache,
    pass: &mut Pass,
    call: &Call<'_>,
) -> Result<Stamped, Unanswered>
    requires { Fits cache.now pass.old }
    ensures { Fits cache.now pass.new }
{
    let Call::Look { base, path, follow } = *call else {
        return Err(Unanswered::Strange);
    };
    let Ok(text) = parse(path) else {
        return Err(Unanswered::Strange);
    };
    match cache.look_counted(rt, alloc, pass, base, text, follow) {
        Fast::Done(stamped) => Ok(stamped),
        Fast::Again(Why::Memory) => Err(Unanswered::Memory),
        Fast::Again(_) => Err(Unanswered::Strange),
    }
}

/// Answers a look-up that fills the rows of its whole path.
fn fill<R: Wait>(
    rt: &R,
    alloc: Global,
    cache: &Dcache,
    pass: &mut Pass,
    call: &Call<'_>,
) -> Result<Stamped, Unanswered>
    requires { Fits cache.now pass.old }
    ensures { Fits cache.now pass.new }
{
    match *call {
        Call::Look { base, path, follow } => {
            Ok(cache.resolve(rt, alloc, pass, base, path, follow))
        }
        _ => Err(Unanswered::Strange),
    }
}

/// Answers a look-up that fills the rows of its whole path, if the lock is free.
fn try_fill(
    alloc: Global,
    cache: &Dcache,
    pass: &mut Pass,
    call: &Call<'_>,
) -> Option<Result<Stamped, Unanswered>>
    requires { Fits cache.now pass.old }
    ensures { Fits cache.now pass.new }
{
    match *call {
        Call::Look { base, path, follow } => {
            Some(Ok(cache.try_resolve(alloc, pass, base, path, follow)?))
        }
        _ => None,
    }
}

/// Answers a look-up that tells its trail, and fills the rows of its whole path.
fn look_along<R: Wait>(
    rt: &R,
    alloc: Global,
    cache: &Dcache,
    pass: &mut Pass,
    call: &Call<'_>,
) -> Result<Stamped, Unanswered>
    requires { Fits cache.now pass.old }
    ensures { Fits cache.now pass.new }
{
    let Call::Look { base, path, follow } = *call else {
        return Err(Unanswered::Strange);
    };
    let Ok(text) = parse(path) else {
        return Err(Unanswered::Strange);
    };
    match cache.resolve_along(rt, alloc, pass, base, text, follow, &mut [0; 8]) {
        Ok((stamped, _)) => Ok(stamped),
        Err(_) => Err(Unanswered::Strange),
    }
}

/// Answers a look-up that tells its trail, and fills the rows of its whole path, if the lock is free.
fn try_along(
    alloc: Global,
    cache: &Dcache,
    pass: &mut Pass,
    call: &Call<'_>,
) -> Option<Result<Stamped, Unanswered>>
    requires { Fits cache.now pass.old }
    ensures { Fits cache.now pass.new }
{
    let Call::Look { base, path, follow } = *call else {
        return None;
    };
    let text = parse(path).ok()?;
    match cache.try_resolve_along(alloc, pass, base, text, follow, &mut [0; 8])? {
        Ok((stamped, _)) => Some(Ok(stamped)),
        Err(_) => None,
    }
}

/// Answers a look-up that asks the tree alone, and fills the rows of its whole path.
fn look_missed<R: Wait>(
    rt: &R,
    alloc: Global,
    cache: &Dcache,
    pass: &mut Pass,
    call: &Call<'_>,
) -> Result<Stamped, Unanswered>
    requires { Fits cache.now pass.old }
    ensures { Fits cache.now pass.new }
{
    let Call::Look { base, path, follow } = *call else {
        return Err(Unanswered::Strange);
    };
    let Ok(text) = parse(path) else {
        return Err(Unanswered::Strange);
    };
    Ok(cache.look_missed(rt, alloc, pass, base, text, follow))
}

/// Tells a page of the directory that is to be listed.
fn page<R: Wait>(
    rt: &R,
    alloc: Global,
    cache: &Dcache,
    pass: &mut Pass,
    call: &Call<'_>,
) -> Result<Stamped, Unanswered>
    requires { Fits cache.now pass.old }
    ensures { Fits cache.now pass.new }
{
    let Call::List { base, path } = *call else {
        return Err(Unanswered::Strange);
    };
    let asked = Entries {
        base,
        path,
        after: None,
        most: 8,
    };
    match cache.entries(rt, alloc, pass, asked) {
        Ok((stamped, _)) => Ok(stamped),
        Err(_) => Err(Unanswered::Memory),
    }
}

/// Whether the rows alone answer a look-up.
pub fn is_told(cache: &Dcache, pass: &mut Pass, call: &Call<'_>) -> bool
    requires { Fits cache.now pass.old }
    ensures { Fits cache.now pass.new }
{
    let Call::Look { base, path, follow } = *call else {
        return false;
    };
    let Ok(text) = parse(path) else {
        return false;
    };
    matches!(cache.look_fast(pass, base, text, follow), Fast::Done(_))
}

/// Splits and joins passes, learns the clock and empties a row.
fn do_free<R: Wait>(rt: &R, cache: &Dcache, pass: &mut Pass)
    requires { Fits cache.now pass.old }
    ensures { Fits cache.now pass.new }
{
    let mut other = cache.split(pass);
    let _learnt = cache.learn(&mut other, 0);
    let _emptied = cache.shrink(rt, &mut other, 1);
    cache.join(pass, other);
}

/// What a call that tries for the lock comes to in one thread, if nobody else has it.
fn at_once(told: Option<Result<Stamped, Unanswered>>) -> Result<Stamped, Unanswered> {
    match told {
        Some(told) => told,
        None => Err(Unanswered::Strange),
    }
}

/// Answers the call of a trial in its way.
pub fn answer_by<R: Wait>(
    rt: &R,
    alloc: Global,
    way: Way,
    cache: &Dcache,
    pass: &mut Pass,
    call: &Call<'_>,
) -> Result<Stamped, Unanswered>
    requires { Fits cache.now pass.old }
    ensures { Fits cache.now pass.new }
{
    match way {
        Way::Waits => answer(rt, alloc, cache, pass, call),
        Way::Fills => count(rt, alloc, cache, pass, call),
        Way::FillsPath => fill(rt, alloc, cache, pass, call),
        Way::Along => look_along(rt, alloc, cache, pass, call),
        Way::TriesAlong => at_once(try_along(alloc, cache, pass, call)),
        Way::Missed => look_missed(rt, alloc, cache, pass, call),
        Way::Tries => at_once(try_answer(alloc, cache, pass, call)),
        Way::TriesPath => at_once(try_fill(alloc, cache, pass, call)),
        Way::Pages => page(rt, alloc, cache, pass, call),
        Way::Free => {
            do_free(rt, cache, pass);
            answer(rt, alloc, cache, pass, call)
        }
    }
}
