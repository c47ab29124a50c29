//! The walk that `walk_fast`, `walk_briefly` and `walk_counted` share, over the rows of a source.

ghost use Rattle.std.specs.Prelude.{◌≡◌, [], false, true, IfOk, IfErr};
ghost use Rattle.dc_plain.specs.FactLaws.{outcome_answer};
ghost use Rattle.dc_plain.specs.Requests.{answer_of};
ghost use Rattle.dc_resolve.specs.Ends.{outcome_shown};
ghost use Rattle.dc_table.specs.Holders.{table_of};
ghost use Rattle.dc_table.specs.Passes.{known, view, share, IsSamePass, IsIdle};
ghost use Rattle.dc_table.specs.Shares.{HasNotTried};
ghost use Rattle.dc_walk.specs.Findings.{CanWalk, buckets_of};
ghost use Rattle.dc_walk.specs.Finds.{AllInside};
ghost use Rattle.dc_walk.specs.Sources.{IsUntried};
ghost use Rattle.dc_walk.specs.Unpins.{PinsUsed, spare_of};
ghost use Rattle.dc_walk.specs.Walks.{StoppedAt, Walks, WentTo};

use crate::answer::Fast;
use crate::filter::KeyFilter;
use crate::finder::Walker;
use crate::look::Look;
use crate::rows::{Rows, Stop};
use crate::settle::settle;
use crate::source::{Bucket, Source};
use crate::used::Room;
use dc_plain::Reply;
use dc_resolve::{Walked, walk};
use dc_table::{Pass, Reader};

/// The reply of a walk that came to an end.
#[inline(always)]
pub(crate) fn reply_of(end: Walked) -> Reply
    ensures { answer_of result ≡ outcome_answer (outcome_shown end) }
{
    match end {
        Walked::Found((number, kind)) => Reply::Found(number, kind),
        Walked::Refused(refusal) => Reply::Refused(refusal.number()),
    }
}

/// Walks by rows. It answers the reply, and whether a step was made; or why there is none. If it is `brief`,
/// it reads no row for the cause, and may answer another.
// Inlined (measured): a look-up by rows is then one function, and its outcome, which has other fields at the same
// bytes if it is a cause, needn't go through memory.
#[inline(always)]
pub(crate) fn walk_rows<'x, S: Source>(
    source: &'x S,
    reader: Reader<'x>,
    pass: &'x mut Pass,
    used: &'x mut Room,
    look: Look<'x>,
    brief: bool,
) -> Result<(Reply, bool), Stop>
    requires serves { S.serves source.now (table_of reader) }
    requires can { CanWalk (table_of reader) pass.old }
    requires empty { (used.old.items ≡ []) × (used.old.spent ≡ 0) }
    ensures same { IsSamePass pass.old pass.new × IsIdle pass.new }
    ensures untried { IsUntried S.locks pass.old pass.new }
    ensures rows { AllInside (share pass.old).rows used.new.items }
    ensures went { IfOk result (λ r. WentTo S.locks look.entry pass.old pass.new r.1 used.new r.0) }
    ensures stopped { IfErr result (λ stop.
        StoppedAt S.locks brief look.entry pass.old pass.new used.new stop.why) }
    ensures pins { PinsUsed S.locks pass.old pass.new used.new (spare_of result) }
{
    let rows = Rows {
        reader,
        pass,
        used,
        look,
        begun: false,
        made: 0,
        filter: KeyFilter::new(),
        slow: false,
        brief,
    };
    let mut walker = Walker { source, rows };
    let walked = walk(&mut walker, look.base, look.path, look.follow);
    let begun = walker.rows.begun;
    match walked {
        Ok(end) => Ok((reply_of(end), begun)),
        Err(stop) => Err(stop),
    }
}

/// Walks by the rows of buckets, as `walk_rows` if it is brief.
// Kept out of line: two walks share it, and neither is called as often as `walk_fast`.
#[inline(never)]
pub(crate) fn walk_rows_briefly<'x>(
    reader: Reader<'x>,
    pass: &'x mut Pass,
    used: &'x mut Room,
    look: Look<'x>,
) -> Result<(Reply, bool), Stop>
    requires can { CanWalk (table_of reader) pass.old }
    requires empty { (used.old.items ≡ []) × (used.old.spent ≡ 0) }
    ensures same { IsSamePass pass.old pass.new × IsIdle pass.new }
    ensures untried { HasNotTried (known pass.old) (known pass.new) }
    ensures rows { AllInside (share pass.old).rows used.new.items }
    ensures went { IfOk result (λ r. WentTo false look.entry pass.old pass.new r.1 used.new r.0) }
    ensures stopped { IfErr result (λ stop.
        StoppedAt false true look.entry pass.old pass.new used.new stop.why) }
{
    walk_rows(&Bucket::<true>, reader, pass, used, look, true)
}

/// Where a path leads by rows, with the rows that were used for it, and one that was had and isn't
/// used.
pub(crate) fn walk_by<S: Source>(
    source: &S,
    reader: Reader<'_>,
    pass: &mut Pass,
    used: &mut Room,
    look: Look<'_>,
) -> (Fast, Option<u64>)
    requires serves { S.serves source.now (table_of reader) }
    requires can { CanWalk (table_of reader) pass.old }
    ensures same { IsSamePass pass.old pass.new × IsIdle pass.new }
    ensures untried { IsUntried S.locks pass.old pass.new }
    ensures walks { Walks S.locks look.entry (buckets_of pass.old) (view pass.old) (view pass.new)
        result.0 }
    ensures pins { PinsUsed S.locks pass.old pass.new used.new result.1 }
{
    // Rows of an earlier walk would be taken for this one's, and their pins back.
    used.clear();
    match walk_rows(source, reader, pass, used, look, false) {
        Ok((reply, begun)) => (settle(reader, pass, used, look, reply, begun), None),
        Err(stop) => (Fast::Again(stop.why), stop.spare),
    }
}
