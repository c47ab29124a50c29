//! A look-up without the lock, a second time if a change came between.

ghost use Rattle.std.specs.Prelude.{◌*◌, ◌+◌, ◌≤◌, IfSome};
ghost use Rattle.dc_cache.specs.Answers.{Answered};
ghost use Rattle.dc_cache.specs.Passes.{view, Fits};
ghost use Rattle.dc_cache.specs.Calls.{look};

use dc_cache::{Dcache, Fast, Follow, MOST_LOADS, Pass, PathText, ROOT, Stamped, Why};

/// Where a path leads, by the rows of the cache alone. It takes no lock and no memory. If a change came
/// between, it tries once more. `None` if the rows don't answer: then the caller goes a slower way of
/// its own, such as a thread that may wait.
#[must_use]
pub fn look_twice(cache: &Dcache, pass: &mut Pass, path: PathText<'_>) -> Option<Stamped>
    requires pass { Fits cache.now pass.old }
    ensures same { Fits cache.now pass.new }
    ensures answered { IfSome result (Answered pass.old pass.new
        (look ROOT path.entry.bytes.now Follow.Yes)) }
    ensures loads { (view pass.new).loads ≤ (view pass.old).loads + 2 * MOST_LOADS }
{
    match cache.look_fast(pass, ROOT, path, Follow::Yes) {
        Fast::Done(found) => return Some(found),
        // These two pass: the row stands again once the change is made.
        Fast::Again(Why::Busy(_) | Why::Changed { .. }) => {}
        Fast::Again(_) => return None,
    }
    match cache.look_fast(pass, ROOT, path, Follow::Yes) {
        Fast::Done(found) => Some(found),
        Fast::Again(_) => None,
    }
}
