//! A look-up that comes after a change that another thread made.

ghost use Rattle.std.specs.Prelude.{◌≤◌, IfOk};
ghost use Rattle.dc_cache.specs.Answers.{Answered};
ghost use Rattle.dc_cache.specs.Passes.{Fits};
ghost use Rattle.dc_cache.specs.Calls.{look};

use dc_cache::{Dcache, Follow, NotYet, Pass, ROOT, Stamped};
use std::alloc::Global;
use std::sync::Wait;

/// Looks a path up at or after the point `at`. Another thread made a change, was told its point p, and
/// says so by any means of its own, as a channel: with `at` = p + 1 the look-up doesn't miss that change.
/// `NotYet` if this many changes were never made, and then `at` is none that the cache answered.
pub fn look_after<R: Wait>(
    rt: &R,
    alloc: Global,
    cache: &Dcache,
    pass: &mut Pass,
    at: u64,
    path: &[u8],
) -> Result<Stamped, NotYet>
    requires pass { Fits cache.now pass.old }
    ensures same { Fits cache.now pass.new }
    ensures answered { IfOk result (Answered pass.old pass.new (look ROOT path.now Follow.Yes)) }
    ensures after { IfOk result (λ found. at ≤ found.at) }
{
    cache.learn(pass, at)?;
    Ok(cache.resolve(rt, alloc, pass, ROOT, path, Follow::Yes))
}
