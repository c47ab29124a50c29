//! The end of a walk: its pivot, and the checks of the rows that its answer rests on.

ghost use Rattle.std.specs.Prelude.{length};
ghost use Rattle.dc_table.specs.Holders.{table_of};
ghost use Rattle.dc_table.specs.Passes.{known, view, share, Fits, IsIdle, StaysOut};
ghost use Rattle.dc_walk.specs.Findings.{view_in};
ghost use Rattle.dc_walk.specs.Finds.{AllInside};
ghost use Rattle.dc_walk.specs.Trails.{IfDone, WereTrue};
ghost use Rattle.dc_walk.specs.Walks.{CameTo, Settles};

use crate::answer::Fast;
use crate::look::Look;
use crate::used::Room;
use crate::why::Why;
use dc_plain::{Reply, Stamped};
use dc_row::words_have_the_fact_they_spell;
use dc_table::{Pass, Reader};

/// Makes the pivot of a walk that came to a reply, and checks the rows that it used. `begun` says
/// whether the walk noted a row.
// Inlined (measured): the reply needn't go through memory.
#[inline(always)]
pub(crate) fn settle(
    reader: Reader<'_>,
    pass: &mut Pass,
    used: &Room,
    look: Look<'_>,
    reply: Reply,
    begun: bool,
) -> Fast
    requires pass { Fits (table_of reader) pass.old × IsIdle pass.old }
    requires rows { AllInside (share pass.old).rows used.now.items }
    requires came { CameTo look (view_in begun pass.old look) used.now reply }
    ensures same { StaysOut pass.old pass.new }
    ensures settles { Settles look.entry (length used.now.items) (view_in begun pass.old look.entry)
        (view pass.new) result }
    ensures were { IfDone result (WereTrue (known pass.new) (share pass.old).limit used.now) }
{
    words_have_the_fact_they_spell();
    // After all reads and before all checks: a row whose count still stands was as read at this point.
    let at = reader.pivot(pass, &look.call(), !begun);
    for c in 0..used.len() {
        let (place, row, count) = (used.place_at(c), used.row_at(c), used.count_at(c));
        if let Err((noted, found)) = reader.check(pass, place, row, count) {
            return Fast::Again(Why::Changed { row, noted, found });
        }
    }
    Fast::Done(Stamped { reply, at })
}
