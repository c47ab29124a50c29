//! Calls that get the lock, do one thing under it, and give it back.

ghost use Rattle.dc_index.specs.Hashed.{key_in};
ghost use Rattle.dc_ops.specs.Asked.{IsChange};
ghost use Rattle.dc_plain.specs.Requests.{request_of};
ghost use Rattle.dc_rows.specs.Outcomes.{MakesAlone, Pins, Shrinks, UnpinsOnce};
ghost use Rattle.dc_table.specs.Changes.{NothingNew, Rested};
ghost use Rattle.dc_table.specs.Passes.{known, view, Fits, IsSamePass, IsIdle};
ghost use Rattle.dc_table.specs.Shares.{HadOnce};

use crate::fault::ChangeFault;
use crate::guard::Guard;
use dc_index::HashedKey;
use dc_names::NoMemory;
use dc_plain::{Call, Reply};
use dc_table::{Pass, Shared, Sleepers};
use std::alloc::Global;
use std::sync::Wait;

/// Makes a change, and answers its reply and how many calls had altered the tree before. It waits for the
/// lock. `Spent` if it would alter the tree for more than the 2^62nd time, `NoMemory` if memory was
/// refused: then nothing has changed. A change that is refused, an `Unlink`, a `Rmdir` and an exchange take
/// no memory.
pub fn change<R: Wait>(
    shared: &Shared,
    rt: &R,
    alloc: Global,
    pass: &mut Pass,
    call: &Call<'_>,
) -> Result<(Reply, u64), ChangeFault>
    requires pass { Fits shared.now pass.old × IsIdle pass.old }
    requires change { IsChange call.now }
    ensures same { IsSamePass pass.old pass.new × IsIdle pass.new }
    ensures once { HadOnce (known pass.old) (known pass.new) }
    ensures made { MakesAlone pass.old pass.new (request_of call.now) result }
{
    let guard = Guard::lock(shared, rt, pass);
    let (back, made) = guard.change::<Sleepers>(alloc, call);
    // For the proof: the pass is back as it is bound.
    let _pass = back;
    made
}

/// Empties up to this many rows, the least recently used first, as `Guard::shrink`, and answers how many.
/// It waits for the lock, and takes no memory.
pub fn shrink<R: Wait>(shared: &Shared, rt: &R, pass: &mut Pass, most: u64) -> u64
    requires pass { Fits shared.now pass.old × IsIdle pass.old }
    ensures same { IsSamePass pass.old pass.new × IsIdle pass.new }
    ensures nothing { NothingNew (view pass.old) (view pass.new) }
    ensures once { HadOnce (known pass.old) (known pass.new) }
    ensures rows { Shrinks most result pass.new }
{
    let mut guard = Guard::lock(shared, rt, pass);
    let emptied = guard.shrink(most);
    guard.give::<Sleepers>();
    emptied
}

/// Pins the row of a key. If no row has the key, one is filled with what the tree has under it. It waits
/// for the lock. `None` if no row can be had or filled, or if the row has as many pins as a row may have.
pub fn pin<R: Wait>(
    shared: &Shared,
    rt: &R,
    alloc: Global,
    pass: &mut Pass,
    key: &HashedKey<'_>,
) -> Result<Option<u64>, NoMemory>
    requires pass { Fits shared.now pass.old × IsIdle pass.old }
    ensures same { IsSamePass pass.old pass.new × IsIdle pass.new }
    ensures rested { Rested (view pass.old) (view pass.new) }
    ensures pinned { Pins (key_in key.now) pass.old pass.new result }
{
    let mut guard = Guard::lock(shared, rt, pass);
    let row = guard.pin(alloc, key);
    guard.give::<Sleepers>();
    row
}

/// Takes a pin from each of these rows that still has one, under one hold of the lock. It waits for the
/// lock.
pub fn unpin_all<R: Wait>(shared: &Shared, rt: &R, pass: &mut Pass, rows: &[u64])
    requires pass { Fits shared.now pass.old × IsIdle pass.old }
    ensures same { IsSamePass pass.old pass.new × IsIdle pass.new }
    ensures rested { Rested (view pass.old) (view pass.new) }
    ensures rows { UnpinsOnce rows.now (known pass.old) (known pass.new) }
{
    let mut guard = Guard::lock(shared, rt, pass);
    guard.unpin_all(rows);
    guard.give::<Sleepers>();
}
