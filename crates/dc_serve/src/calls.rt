//! Which calls of the cache answer a call of a session.

ghost use Rattle.std.specs.Prelude.{◌≡◌, IfOk, IfErr};
ghost use Rattle.dc_cache.specs.Answers.{Answered};
ghost use Rattle.dc_cache.specs.Passes.{share, view, Fits};
ghost use Rattle.dc_plain.specs.Requests.{request_of};
ghost use Rattle.dc_plain.specs.Requests.Request.{Look};
ghost use Rattle.dc_serve.specs.Bytes.{IsServiceFault};
ghost use Rattle.dc_serve.specs.Threads.{book};
ghost use Rattle.dc_table.specs.Changes.{NothingNew};

use crate::{Gate, Looked, ServeFault};
use dc_cache::{Dcache, Fast, Pass, Why, parse};
use dc_plain::{Call, Follow, Stamped};
use std::alloc::Global;
use std::sync::Wait;

/// Answers a look-up by the rows as they stand, else under the lock, and says which of them answered it. If
/// a change came between, the rows are there, and answer once they are pinned. If they lack a name or a
/// text, or if they don't answer then either, the tree is asked, under one hold, which fills the rows of
/// the path.
fn look<R: Wait>(
    rt: &R,
    alloc: Global,
    cache: &Dcache,
    pass: &mut Pass,
    base: u64,
    path: &[u8],
    follow: Follow,
) -> (Stamped, Looked)
    requires { Fits cache.now pass.old }
    ensures same { Fits cache.now pass.new × (share pass.new ≡ share pass.old) }
    ensures answered { Answered pass.old pass.new (Look base path.now follow) result.0 }
{
    let Ok(text) = parse(path) else {
        return (
            cache.look(rt, alloc, pass, base, path, follow),
            Looked::NoPath,
        );
    };
    let why = match cache.look_fast(pass, base, text, follow) {
        Fast::Done(stamped) => return (stamped, Looked::ByRows),
        Fast::Again(why) => why,
    };
    // A walk that pins its rows takes the lock once more than the path has names. So it isn't for a path
    // whose rows have to be filled: one hold is enough for that.
    if let Why::Busy(_) | Why::Changed { .. } = why {
        if let Fast::Done(stamped) = cache.look_counted(rt, alloc, pass, base, text, follow) {
            return (stamped, Looked::UnderLock(why));
        }
    }
    let stamped = cache.look_missed(rt, alloc, pass, base, text, follow);
    (stamped, Looked::UnderLock(why))
}

/// Answers a call. If it looks up, the gate learns how. If it answers a fault, nothing is recorded.
pub fn answer<R: Wait, G: Gate>(
    rt: &R,
    alloc: Global,
    cache: &Dcache,
    pass: &mut Pass,
    call: &Call<'_>,
    gate: &G,
) -> Result<Stamped, ServeFault>
    requires { Fits cache.now pass.old }
    ensures same { Fits cache.now pass.new × (share pass.new ≡ share pass.old) }
    ensures ok { IfOk result (Answered pass.old pass.new (request_of call.now)) }
    ensures nothing { IfErr result (λ _. NothingNew (view pass.old) (view pass.new)) }
    ensures err { IfErr result (IsServiceFault (book pass.new).seen) }
{
    match *call {
        Call::Look { base, path, follow } => {
            let (stamped, looked) = look(rt, alloc, cache, pass, base, path, follow);
            gate.looked(looked);
            Ok(stamped)
        }
        Call::Stat { base, path } => Ok(cache.stat(rt, pass, base, path)),
        Call::Readlink { base, path } => Ok(cache.readlink(rt, alloc, pass, base, path)?),
        Call::List { base, path } => Ok(cache.list(rt, alloc, pass, base, path)?),
        Call::Mkdir { .. }
        | Call::Create { .. }
        | Call::Link { .. }
        | Call::Symlink { .. }
        | Call::Unlink { .. }
        | Call::Rmdir { .. }
        | Call::Rename { .. } => Ok(cache.change(rt, alloc, pass, call)?),
    }
}
