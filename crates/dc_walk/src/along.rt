//! The walk without the lock that also tells what it passes through.

ghost use Rattle.std.specs.Prelude.{◌≡◌, [], length, IfErr, IfOk};
ghost use Rattle.dc_table.specs.Holders.{table_of};
ghost use Rattle.dc_table.specs.Passes.{known, share, IsIdle, IsSamePass};
ghost use Rattle.dc_table.specs.Shares.{HasNotTried};
ghost use Rattle.dc_walk.specs.Findings.{CanWalk};
ghost use Rattle.dc_walk.specs.Finds.{AllInside};
ghost use Rattle.dc_walk.specs.Trails.{FindsAlong, HaltedAt, WentAlong};

use crate::answer::Fast;
use crate::filter::KeyFilter;
use crate::finder::Walker;
use crate::look::Look;
use crate::rows::{Rows, Stop};
use crate::settle::settle;
use crate::source::Bucket;
use crate::used::Room;
use crate::walk::reply_of;
use crate::why::Why;
use dc_plain::{Reply, Stamped};
use dc_table::{Pass, Reader};
use dc_trail::{Halt, walk_along};

/// What a look-up that rests on rows, and tells its trail, comes to.
#[derive(Debug, Drop)]
#[must_use]
pub enum FastAlong {
    /// An answer, the point at which it was true, and how many places its trail takes.
    Done(Stamped, usize),
    /// No answer.
    Again(Why),
    /// No answer, as the trail, by the rows that were read, has more directories than there are places.
    TooFewPlaces,
}

/// A reply that rows gave, whether a step was made for it, and how many places its trail takes.
#[derive(Drop)]
pub(crate) struct Along {
    pub reply: Reply,
    pub begun: bool,
    pub many: usize,
}

/// Walks by the rows of a table, as `walk_rows`, and writes the trail.
fn walk_rows_along(
    reader: Reader<'_>,
    pass: &mut Pass,
    used: &mut Room,
    look: Look<'_>,
    trail: &mut [u64],
) -> Result<Along, Halt<Stop>>
    requires can { CanWalk (table_of reader) pass.old }
    requires empty { (used.old.items ≡ []) × (used.old.spent ≡ 0) }
    ensures same { IsSamePass pass.old pass.new × IsIdle pass.new }
    ensures untried { HasNotTried (known pass.old) (known pass.new) }
    ensures rows { AllInside (share pass.old).rows used.new.items }
    ensures places { length trail.new ≡ length trail.old }
    ensures went { IfOk result (WentAlong look.entry pass.old pass.new used.new trail.new) }
    ensures halted { IfErr result (HaltedAt look.entry pass.old pass.new used.new (length trail.new)) }
{
    let rows = Rows {
        reader,
        pass,
        used,
        look,
        begun: false,
        made: 0,
        filter: KeyFilter::new(),
        slow: false,
        brief: false,
    };
    let mut walker = Walker {
        source: &Bucket::<false>,
        rows,
    };
    let walked = walk_along(&mut walker, look.base, look.path, look.follow, trail);
    let begun = walker.rows.begun;
    match walked {
        Ok((end, many)) => Ok(Along {
            reply: reply_of(end),
            begun,
            many,
        }),
        Err(Halt::Finder(stop)) => Err(Halt::Finder(stop)),
        Err(Halt::Full) => Err(Halt::Full),
    }
}

/// Where a path leads, by the rows of a table alone, as `walk_fast`, and its trail: each directory in
/// which the path's resolution asks for a name or for dot-dot on the tree of the answer's point, once, in
/// the order in which it asks there first. It is written into the caller's places.
pub fn walk_fast_along(
    reader: Reader<'_>,
    pass: &mut Pass,
    room: &mut Room,
    look: Look<'_>,
    trail: &mut [u64],
) -> FastAlong
    requires can { CanWalk (table_of reader) pass.old }
    ensures same { IsSamePass pass.old pass.new × IsIdle pass.new }
    ensures untried { HasNotTried (known pass.old) (known pass.new) }
    ensures places { length trail.new ≡ length trail.old }
    ensures told { FindsAlong look.entry.base look.entry.path.bytes.now look.entry.follow pass.old
        pass.new trail.new result }
{
    // Rows of an earlier walk would be taken for this one's.
    room.clear();
    match walk_rows_along(reader, pass, room, look, trail) {
        Ok(along) => {
            let Along { reply, begun, many } = along;
            match settle(reader, pass, room, look, reply, begun) {
                Fast::Done(stamped) => FastAlong::Done(stamped, many),
                Fast::Again(why) => FastAlong::Again(why),
            }
        }
        Err(Halt::Finder(stop)) => FastAlong::Again(stop.why),
        Err(Halt::Full) => FastAlong::TooFewPlaces,
    }
}
