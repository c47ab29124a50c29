//! A thread makes a directory and looks it up.

ghost use Rattle.std.specs.Prelude.{IfOk};
ghost use Rattle.dc_cache.specs.Passes.{Fits};
ghost use Rattle.dc_uses.specs.Both.{AnsweredBoth};
ghost use Rattle.dc_cache.specs.Calls.{look, mkdir};

use dc_cache::{Call, ChangeFault, Dcache, Follow, Pass, ROOT, Stamped};
use std::alloc::Global;
use std::sync::Wait;

/// Makes a directory, and looks its path up. The pass records both calls, and the look-up takes effect
/// after the directory was made. What other threads do in between, as removing it, shows in the reply.
pub fn make_and_look<R: Wait>(
    rt: &R,
    alloc: Global,
    cache: &Dcache,
    pass: &mut Pass,
    path: &[u8],
) -> Result<(Stamped, Stamped), ChangeFault>
    requires pass { Fits cache.now pass.old }
    ensures same { Fits cache.now pass.new }
    ensures both { IfOk result (λ r. AnsweredBoth pass.old pass.new
        (mkdir ROOT path.now) r.0 (look ROOT path.now Follow.Yes) r.1) }
{
    let made = cache.change(rt, alloc, pass, &Call::Mkdir { base: ROOT, path })?;
    let found = cache.resolve(rt, alloc, pass, ROOT, path, Follow::Yes);
    Ok((made, found))
}
