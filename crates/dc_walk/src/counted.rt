//! The counted walk: it has each row that it needs filled and pinned, and takes the pins back at its end.

ghost use Rattle.std.specs.Prelude.{true};
ghost use Rattle.dc_table.specs.Passes.{known, view, Fits, IsSamePass, IsIdle};
ghost use Rattle.dc_walk.specs.Fasts.{Tried};
ghost use Rattle.dc_walk.specs.Findings.{CanWalk};
ghost use Rattle.dc_walk.specs.Looks.{look_shown};
ghost use Rattle.dc_walk.specs.Sources.{Rests};
ghost use Rattle.dc_walk.specs.Unpins.{rows_in, rows_used, with_spare, IsUnpinned, GivesBack};

use crate::answer::Fast;
use crate::look::Look;
use crate::pinned::Pinning;
use crate::used::Room;
use crate::walk::walk_by;
use arrayvec::ArrayVec;
use dc_names::MOST_PINNED;
use dc_rows::unpin_all;
use dc_table::{Pass, Shared};
use std::alloc::Global;
use std::sync::Wait;

/// Takes back the pins of the rows that a walk used, and that of a row which it had and didn't use, all
/// under one hold of the lock.
fn unpin<R: Wait>(shared: &Shared, rt: &R, pass: &mut Pass, used: &Room, spare: Option<u64>)
    requires pass { Fits shared.now pass.old × IsIdle pass.old }
    ensures same { IsSamePass pass.old pass.new × IsIdle pass.new }
    ensures rests { Rests true (view pass.old) (view pass.new) }
    ensures unpinned { IsUnpinned (with_spare (rows_used used.now.items) spare) (known pass.old)
        (known pass.new) }
{
    let mut rows: ArrayVec<u64, MOST_PINNED> = ArrayVec::new();
    for at in 0..used.len() {
        rows.push(used.row_at(at));
    }
    if let Some(row) = spare {
        rows.push(row);
    }
    if !rows.is_empty() {
        unpin_all(shared, rt, pass, rows.as_slice());
    }
}

/// Where a path leads, by rows that are filled from the tree and pinned one after the other, each under
/// the lock; the answer rests on the rows alone, as that of `walk_fast`. It waits for the lock.
/// `Again(Memory)` if memory for a row or its pin was refused. On every way out each row that it
/// pinned is unpinned, so that n names take n + 1 holds of the lock.
pub fn walk_counted<R: Wait>(
    shared: &Shared,
    rt: &R,
    alloc: Global,
    pass: &mut Pass,
    room: &mut Room,
    look: Look<'_>,
) -> Fast
    requires can { CanWalk shared.now pass.old }
    ensures same { IsSamePass pass.old pass.new × IsIdle pass.new }
    ensures tried { Tried (look_shown look.entry) (view pass.old) (view pass.new) result }
    ensures pins { GivesBack (rows_in room.new) (known pass.old) (known pass.new) }
{
    let source = Pinning { shared, rt, alloc };
    let (fast, spare) = walk_by(&source, shared.reader(), pass, room, look);
    // A pin that stayed would keep the row from every other key. The answer stands without its pins,
    // since the rows were checked.
    unpin(shared, rt, pass, room, spare);
    fast
}
