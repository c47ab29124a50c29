//! The walks without the lock: one that says why it gives up, and a brief one that doesn't.

ghost use Rattle.std.specs.Prelude.{IfNone};
ghost use Rattle.dc_table.specs.Holders.{table_of};
ghost use Rattle.dc_table.specs.Passes.{known, view, share, IsSamePass, IsIdle, StaysOut};
ghost use Rattle.dc_table.specs.Shares.{HasNotTried};
ghost use Rattle.dc_walk.specs.Fasts.{TriedBriefly};
ghost use Rattle.dc_walk.specs.Findings.{CanWalk, buckets_of};
ghost use Rattle.dc_walk.specs.Looks.{look_shown};
ghost use Rattle.dc_walk.specs.Placing.{AreNoted};
ghost use Rattle.dc_walk.specs.Walks.{WalksFast};

use crate::answer::Fast;
use crate::look::Look;
use crate::settle::settle;
use crate::source::Bucket;
use crate::used::Room;
use crate::walk::{walk_by, walk_rows_briefly};
use dc_plain::Stamped;
use dc_table::{Pass, Reader};

/// Where a path leads, by the rows of a table alone. It takes no lock and no memory, never waits, and
/// makes at most `MOST_LOADS` loads: a reader has the steps of a walk alone.
pub fn walk_fast(reader: Reader<'_>, pass: &mut Pass, room: &mut Room, look: Look<'_>) -> Fast
    requires can { CanWalk (table_of reader) pass.old }
    ensures same { IsSamePass pass.old pass.new × IsIdle pass.new }
    ensures untried { HasNotTried (known pass.old) (known pass.new) }
    ensures walks { WalksFast look.entry (buckets_of pass.old) (view pass.old) (view pass.new) result }
{
    let (fast, _) = walk_by(&Bucket::<false>, reader, pass, room, look);
    fast
}

/// Where a path leads, by the rows of a table alone, as `walk_fast`, for a caller who asks the tree next
/// if there is no answer. `None` doesn't say why, as to tell the cause a walk would read rows whole,
/// which takes a sixth of a miss (measured). The room has the rows then by which the questions before were
/// answered, for `are_as_noted`.
pub fn walk_briefly(
    reader: Reader<'_>,
    pass: &mut Pass,
    room: &mut Room,
    look: Look<'_>,
) -> Option<Stamped>
    requires can { CanWalk (table_of reader) pass.old }
    ensures same { StaysOut pass.old pass.new }
    ensures tried { TriedBriefly (look_shown look.entry) (view pass.old) (view pass.new) result }
    ensures noted { IfNone result (AreNoted (view pass.new) (share pass.new).rows room.new) }
{
    // Rows of an earlier walk would be taken for this one's.
    room.clear();
    let Ok((reply, begun)) = walk_rows_briefly(reader, pass, room, look) else {
        return None;
    };
    if let Fast::Done(stamped) = settle(reader, pass, room, look, reply, begun) {
        return Some(stamped);
    }
    // One of them was changed.
    room.clear();
    None
}
