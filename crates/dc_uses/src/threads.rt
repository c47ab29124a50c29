//! Two threads work on one cache, each with a pass of its own.

ghost use Rattle.std.specs.Prelude.{◌≡◌};
ghost use Rattle.std.specs.Thread.{IsSync};
ghost use Rattle.dc_cache.specs.Passes.{share, Fits, IsWhole};

use dc_cache::{Call, Dcache, Pass, ROOT};
use std::alloc::Global;
use std::sync::Wait;
use std::thread::{Threads, join};

/// Makes a directory, and hands the pass back.
fn make<R: Wait>(rt: &R, alloc: Global, cache: &Dcache, mut pass: Pass, path: &[u8]) -> Pass
    requires pass { Fits cache.now pass }
    ensures pass { Fits cache.now result }
    ensures share { share result ≡ share pass }
{
    // What became of it, the caller reads from the tree.
    let _ = cache.change(rt, alloc, &mut pass, &Call::Mkdir { base: ROOT, path });
    pass
}

/// Makes two directories, each in a thread of its own. A pass with the whole share has it again
/// afterwards, so that a `close` with it has the tree.
pub fn make_in_two_threads<R: Threads + Wait + Sync>(
    rt: &R,
    alloc: Global,
    cache: &Dcache,
    mut pass: Pass,
    paths: (&[u8], &[u8]),
) -> Pass
    requires pass { Fits cache.now pass }
    requires sync { IsSync R.row }
    ensures pass { Fits cache.now result }
    ensures whole { IsWhole (share pass) → IsWhole (share result) }
{
    let other = cache.split(&mut pass);
    let (first, second) = paths;
    let (mut pass, other) = join(
        rt,
        move || -> Pass
            requires { Fits cache.now pass }
            ensures { Fits cache.entry.now result × (share result ≡ share pass) }
        { make(rt, alloc, cache, pass, first) },
        move || -> Pass
            requires { Fits cache.now other }
            ensures { Fits cache.entry.now result × (share result ≡ share other) }
        { make(rt, alloc, cache, other, second) },
    );
    cache.join(&mut pass, other);
    pass
}
