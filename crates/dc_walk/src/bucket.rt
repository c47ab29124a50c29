//! The rows that may tell of a key, one after another.

ghost use Rattle.std.specs.Prelude.{◌≡◌, ◌≤◌, ◌<◌, ◌+◌, false, IfOk, IfErr, OnErr};
ghost use Rattle.dc_index.specs.Slots.{key_hash};
ghost use Rattle.dc_plain.specs.KeysShown.{key_shown};
ghost use Rattle.dc_table.specs.Passes.{share};
ghost use Rattle.dc_walk.specs.Causes.{Looked};
ghost use Rattle.dc_walk.specs.Findings.{now_in, spent};
ghost use Rattle.dc_walk.specs.Seeks.{key_in, LooksOn, MaySeek, Seeks};
ghost use Rattle.dc_walk.specs.Sights.{AnswersIn, Fails, LookedWhole};
ghost use Rattle.dc_walk.specs.Sources.{LiesIn};
ghost use Rattle.dc_walk.specs.declared.probe.Extent.TheVariants.{Whole};
ghost use Rattle.dc_names.specs.declared.limits.TheConstants.{BUCKET_ROWS};

use crate::probe::Extent;
use crate::row::{Seen, look_at};
use crate::rows::Rows;
use crate::sought::Sought;
use crate::source::Lane;
use dc_plain::Key;

/// What is known of rows that were looked at for a key, none of which tells of it.
#[derive(Clone, Copy)]
struct Untold {
    /// The first of them that is odd.
    odd: Option<u64>,
    /// Whether one was left after its head: it tells nothing then of why there is no answer.
    left: bool,
}

/// Looks at some rows up to the first that tells of a key, which is the last of the used ones then.
/// `earlier` rows were looked at before for this key.
#[inline(always)]
fn ask_rows(
    rows: &mut Rows<'_>,
    lane: Lane,
    sought: &Sought<'_>,
    extent: Extent,
    earlier: u64,
) -> Result<usize, Untold>
    requires may { MaySeek rows.old (key_in sought.now) earlier }
    requires lies { LiesIn (share rows.old.pass.now).rows lane }
    requires early { earlier < BUCKET_ROWS + 1 }
    ensures on { LooksOn rows.old rows.new }
    ensures slow { rows.new.slow ≡ rows.old.slow }
    ensures tells { IfOk result (AnswersIn rows.old (key_in sought.now) rows.new lane earlier) }
    ensures fails { OnErr result (Fails rows.old (key_in sought.now) rows.new
        (earlier + lane.len)) }
    ensures looked { IfErr result (λ untold. LookedWhole (now_in rows.new) lane.first
        (key_in sought.now) untold.left lane.len untold.odd) }
    ensures whole { IfErr result (λ untold. extent ≡ Whole → untold.left ≡ false) }
{
    // For the proof: a table has fewer than 2^64 rows.
    let reader = rows.reader;
    let _rows = reader.rows();
    let mut odd = None;
    let mut left = false;
    for k in 0..lane.len {
        match look_at(rows, lane.first + k, sought, extent, earlier, k) {
            Seen::Tells(at) => return Ok(at),
            Seen::Odd => odd = odd.or(Some(lane.first + k)),
            Seen::Other => {}
            Seen::Left => left = true,
        }
    }
    Err(Untold { odd, left })
}

/// Looks at rows whole, for a look that left some after their heads. If a row tells of the key after all,
/// later keys are sought in whole rows at once.
// Kept out of line: few look-ups come to it. It gets the key by itself, so that what is sought stays in
// registers in those that don't (measured).
#[inline(never)]
fn look_whole(
    rows: &mut Rows<'_>,
    lane: Lane,
    key: Key<'_>,
    hash: u64,
    earlier: u64,
) -> Result<usize, Option<u64>>
    requires hash { hash ≡ key_hash (key_shown key) }
    requires may { MaySeek rows.old (key_shown key) earlier }
    requires lies { LiesIn (share rows.old.pass.now).rows lane }
    requires early { spent rows.old + earlier ≤ BUCKET_ROWS }
    ensures on { LooksOn rows.old rows.new }
    ensures seeks { Seeks rows.old (key_shown key.entry) rows.new lane result }
    ensures looked { IfErr result (λ odd.
        Looked (now_in rows.new) lane.first (key_shown key.entry) odd lane.len) }
{
    let sought = Sought::new(key, hash);
    match ask_rows(rows, lane, &sought, Extent::Whole, earlier) {
        Ok(at) => {
            rows.slow = true;
            Ok(at)
        }
        Err(untold) => Err(untold.odd),
    }
}

/// Asks rows for a key: first those whose head and number are the key's, then each of them whole, unless
/// all were read so at once. A walk that found a key by the second look alone, as a change meanwhile wrote
/// its row, makes no second look again: else it would load more than it may. One that needn't say why it
/// gives up makes none at all.
#[inline(always)]
pub(crate) fn seek_row(
    rows: &mut Rows<'_>,
    lane: Lane,
    key: Key<'_>,
    hash: u64,
) -> Result<usize, Option<u64>>
    requires hash { hash ≡ key_hash (key_shown key) }
    requires may { MaySeek rows.old (key_shown key) 0 }
    requires lies { LiesIn (share rows.old.pass.now).rows lane }
    ensures on { LooksOn rows.old rows.new }
    ensures seeks { Seeks rows.old (key_shown key.entry) rows.new lane result }
    ensures looked { rows.old.brief ≡ false → IfErr result (λ odd.
        Looked (now_in rows.new) lane.first (key_shown key.entry) odd lane.len) }
{
    let mut earlier = 0;
    if !rows.slow {
        let sought = Sought::new(key, hash);
        match ask_rows(rows, lane, &sought, Extent::Head, 0) {
            Ok(at) => return Ok(at),
            Err(untold) if rows.brief || !untold.left => return Err(untold.odd),
            Err(_) => earlier = lane.len,
        }
    }
    look_whole(rows, lane, key, hash, earlier)
}
