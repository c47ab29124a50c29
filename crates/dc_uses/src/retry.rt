//! A change in a thread that may not wait.

ghost use Rattle.std.specs.Prelude.{IfSome, IfNone};
ghost use Rattle.dc_cache.specs.Answers.{Made};
ghost use Rattle.dc_cache.specs.Passes.{view, Fits, IsChange};
ghost use Rattle.dc_cache.specs.Calls.{request_of, NothingNew};

use dc_cache::{Call, ChangeFault, Dcache, Pass, Stamped};
use std::alloc::Global;

/// Makes a change, and tries for the lock this many times. `None` if another pass had the lock each time:
/// then nothing is recorded, and the caller may come again later.
#[must_use]
pub fn change_in_tries(
    alloc: Global,
    cache: &Dcache,
    pass: &mut Pass,
    call: &Call<'_>,
    tries: u32,
) -> Option<Result<Stamped, ChangeFault>>
    requires pass { Fits cache.now pass.old }
    requires change { IsChange call.now }
    ensures same { Fits cache.now pass.new }
    ensures made { IfSome result (Made pass.old pass.new (request_of call.now)) }
    ensures held { IfNone result (NothingNew (view pass.old) (view pass.new)) }
{
    for _ in 0..tries {
        if let Some(made) = cache.try_change(alloc, pass, call) {
            return Some(made);
        }
    }
    None
}
