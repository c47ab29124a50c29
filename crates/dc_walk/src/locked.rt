//! The walk under the lock, which asks the tree itself.

ghost use Rattle.dc_ops.specs.Asked.{IsSought};
ghost use Rattle.dc_plain.specs.Requests.{request_of, answer_of};
ghost use Rattle.dc_table.specs.Changes.{Recorded};
ghost use Rattle.dc_table.specs.Passes.{known, view, Fits, IsSamePass, IsIdle};
ghost use Rattle.dc_table.specs.Shares.{HadOnce};

use dc_ops::seek;
use dc_plain::{Call, Stamped};
use dc_rows::Guard;
use dc_table::{Pass, Shared, Sleepers};
use std::sync::Wait;

/// Answers a `Look` or a `Stat` from the tree itself. It waits for the lock, takes no memory, and fills
/// no row.
pub fn walk_locked<R: Wait>(shared: &Shared, rt: &R, pass: &mut Pass, call: &Call<'_>) -> Stamped
    requires pass { Fits shared.now pass.old × IsIdle pass.old }
    requires call { IsSought call.now }
    ensures same { IsSamePass pass.old pass.new × IsIdle pass.new }
    ensures once { HadOnce (known pass.old) (known pass.new) }
    ensures recorded { Recorded (view pass.old) (view pass.new) (request_of call.now)
        (answer_of result.reply) result.at }
{
    let guard = Guard::lock(shared, rt, pass);
    let reply = seek(guard.store(), call);
    let at = guard.clock();
    guard.answer::<Sleepers>(call);
    Stamped { reply, at }
}
