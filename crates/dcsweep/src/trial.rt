//! The calls of a cache, each with an allocation refused.

ghost use Rattle.std.specs.Prelude.{IfOk};
ghost use Rattle.dc_cache.specs.Passes.{Fits};

use crate::fault::Fault;
use crate::later::{answer_alike, are_unpinned, end_alike};
use crate::lines::Input;
use crate::probe::{Plan, told};
use crate::told::Told;
use crate::ways::{Unanswered, Way, answer, answer_by, is_told};
use dc_cache::{Dcache, Pass, ROOT};
use dc_lang::{Line, call};
use dc_plain::{Call, Stamped};
use std::alloc::Global;
use std::sync::Wait;

/// How many buckets a cache has: one, so that a pin that stays is seen.
const BUCKETS: u64 = 1;

/// How many inodes may live in it.
const INODES: u64 = 64;

/// Makes the calls of some lines.
fn make_each<R: Wait>(
    rt: &R,
    alloc: Global,
    cache: &Dcache,
    pass: &mut Pass,
    lines: &[Line],
) -> Result<(), Fault>
    requires { Fits cache.now pass.old }
    ensures { Fits cache.now pass.new }
{
    for line in lines {
        let Line::Command(command) = line else {
            return Err(Fault::Words);
        };
        if answer(rt, alloc, cache, pass, &call(command, ROOT)).is_err() {
            return Err(Fault::Setup);
        }
    }
    Ok(())
}

/// A cache after the calls of some lines.
fn made<R: Wait>(rt: &R, alloc: Global, lines: &[Line]) -> Result<(Dcache, Pass), Fault>
    ensures { IfOk result (λ r. Fits r.0 r.1) }
{
    let (cache, mut pass) = Dcache::new(alloc, BUCKETS, INODES)?;
    make_each(rt, alloc, &cache, &mut pass, lines)?;
    Ok((cache, pass))
}

/// What isn't as with a twin, which makes the call now if it was answered.
fn difference<R: Wait>(
    rt: &R,
    alloc: Global,
    way: Way,
    asked: &Call<'_>,
    came: &Result<Stamped, Unanswered>,
    cache: &Dcache,
    pass: &mut Pass,
    twin: &Dcache,
    other: &mut Pass,
) -> Result<Option<&'static str>, Fault>
    requires pass { Fits cache.now pass.old }
    requires other { Fits twin.now other.old }
    ensures pass { Fits cache.now pass.new }
    ensures other { Fits twin.now other.new }
{
    if came.is_ok() && answer_by(rt, alloc, way, twin, other, asked) != *came {
        return Ok(Some("the reply"));
    }
    if let Way::Fills = way
        && answer_by(rt, alloc, way, cache, pass, asked)
            != answer_by(rt, alloc, way, twin, other, asked)
    {
        return Ok(Some("the rows filled afterwards"));
    }
    if !are_unpinned(rt, alloc, cache, pass) {
        return Ok(Some("a pin stayed"));
    }
    if !answer_alike(rt, alloc, cache, pass, twin, other)? {
        return Ok(Some("a later reply"));
    }
    Ok(None)
}

/// What isn't as in a run with the call, if it was answered, or without it.
fn fault_of<R: Wait>(
    rt: &R,
    alloc: Global,
    way: Way,
    before: &[Line],
    asked: &Call<'_>,
    cache: Dcache,
    mut pass: Pass,
    came: &Result<Stamped, Unanswered>,
) -> Result<Option<&'static str>, Fault>
    requires { Fits cache pass }
{
    let (twin, mut other) = made(rt, alloc, before)?;
    let found = difference(
        rt, alloc, way, asked, came, &cache, &mut pass, &twin, &mut other,
    )?;
    if found.is_some() {
        return Ok(found);
    }
    Ok((!end_alike(cache, pass, twin, other)).then_some("the end"))
}

/// Whether a walk that answered, and met the refusal as it took a pin back, left the row filled, which then
/// has no place in the list.
fn is_left(
    way: Way,
    place: Option<u64>,
    came: &Result<Stamped, Unanswered>,
    cache: &Dcache,
    pass: &mut Pass,
    asked: &Call<'_>,
) -> bool
    requires { Fits cache.now pass.old }
    ensures { Fits cache.now pass.new }
{
    matches!(way, Way::Fills) && came.is_ok() && place.is_none() && is_told(cache, pass, asked)
}

/// Makes a call with an allocation refused, and compares the cache with one that never met that.
pub fn trial<R: Wait>(
    rt: &R,
    alloc: Global,
    plan: &Plan<'_>,
    input: &Input<'_>,
) -> Result<Told, Fault> {
    let way = Way::of(plan.name).ok_or(Fault::Words)?;
    let asked = call(input.last()?, ROOT);
    let (cache, mut pass) = made(rt, alloc, input.before())?;
    if plan.setup {
        return Ok(told(plan.place(alloc), true));
    }
    let came = answer_by(rt, alloc, way, &cache, &mut pass, &asked);
    let place = plan.place(alloc);
    if came == Err(Unanswered::Strange) {
        return Ok(Told::Wrong("no answer"));
    }
    if is_left(way, place, &came, &cache, &mut pass, &asked) {
        return Ok(Told::Wrong("a row without a place in the list"));
    }
    match fault_of(rt, alloc, way, input.before(), &asked, cache, pass, &came)? {
        Some(what) => Ok(Told::Wrong(what)),
        None => Ok(told(place, came.is_ok())),
    }
}
