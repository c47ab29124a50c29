//! Rows are emptied under the lock.

ghost use Rattle.std.specs.Prelude.{◌≡◌, ◌<◌, length, min, true};
ghost use Rattle.dc_events.specs.Rows.{base_of};
ghost use Rattle.dc_index.specs.Slots.{slot_of, has_key};
ghost use Rattle.dc_rows.specs.Changes.{KeepsTree, OnlyWrites};
ghost use Rattle.dc_rows.specs.Filling.{Redone, Emptied};
ghost use Rattle.dc_rows.specs.Guards.{kept_by, rows_of, Keeps};
ghost use Rattle.dc_rows.specs.Narrow.{HasFrom};
ghost use Rattle.dc_rows.specs.RowChanges.{EmptiesLast, EmptiesRow};
ghost use Rattle.dc_rows.specs.Rows.{MayTell};
ghost use Rattle.dc_table.specs.Changes.{tree_now, words_of};
ghost use Rattle.dc_table.specs.Holders.{pass_of};
ghost use Rattle.dc_table.specs.Passes.{view, share, CanShut};

use crate::guard::Guard;
use crate::writing::{most_words, open_with};
use dc_row::{EMPTY_ROW, ROW_WORDS, empty_row_spells_nothing};
use dc_table::{Guarded, Holder, MOST_COUNT};

/// Shuts a row, writes its words up to a place from which on it has them already, and opens it. `false`
/// if that was its last opening: then it is empty.
pub(crate) fn rewrite(
    holder: &mut Holder<'_>,
    row: u64,
    words: &[u64; ROW_WORDS],
    end: usize,
) -> bool
    requires row { let p = pass_of holder.old in (row < (share p).rows) × CanShut (view p) row }
    requires size { let p = pass_of holder.old in length (words_of p) ≡ base_of (share p).rows }
    requires tells { MayTell (tree_now (pass_of holder.old)) words.now }
    requires has { HasFrom end (words_of (pass_of holder.old)) row words.now }
    ensures same_reference { holder.new.pass.ghost_name ≡ holder.old.pass.ghost_name }
    ensures pass { OnlyWrites (pass_of holder.old) (pass_of holder.new) }
    ensures redone { Redone (words_of (pass_of holder.old)) (words_of (pass_of holder.new)) row
        words.now result }
{
    empty_row_spells_nothing();
    let odd = holder.shut_row(row);
    if odd + 1 >= MOST_COUNT {
        // `end` is that of other words, and an empty row may have other ones from there on: all are written.
        open_with(holder, row, &EMPTY_ROW, ROW_WORDS);
        return false;
    }
    open_with(holder, row, words, end);
    true
}

/// Empties a row that has a key, which it loses, and that is zero from a place on. Whether it is in use is
/// another's matter.
pub(crate) fn empty(holder: &mut Holder<'_>, kept: &mut Guarded, row: u64, end: usize)
    requires row { let p = pass_of holder.old in (row < (share p).rows) × CanShut (view p) row }
    requires size { let p = pass_of holder.old in length (words_of p) ≡ base_of (share p).rows }
    requires key { has_key (slot_of kept.old.index row) ≡ true }
    requires zeros { HasFrom end (words_of (pass_of holder.old)) row EMPTY_ROW }
    ensures same_reference { holder.new.pass.ghost_name ≡ holder.old.pass.ghost_name }
    ensures pass { OnlyWrites (pass_of holder.old) (pass_of holder.new) }
    ensures tree { KeepsTree kept.old kept.new }
    ensures shrinker { kept.new.shrinker ≡ kept.old.shrinker }
    ensures emptied { Emptied (words_of (pass_of holder.old)) (words_of (pass_of holder.new))
        kept.old.index kept.new.index row }
{
    empty_row_spells_nothing();
    holder.count_row_emptied();
    if rewrite(holder, row, &EMPTY_ROW, end) {
        kept.index.clear(row);
    } else {
        kept.index.retire(row);
    }
}

impl Guard<'_> {
    /// Empties a row that has a key, which it loses, and takes it out of use.
    pub fn evict(&mut self, row: u64)
        requires key { has_key (slot_of (kept_by self.old).index row) ≡ true }
        ensures same_reference { self.new.holder.pass.ghost_name ≡ self.old.holder.pass.ghost_name }
        ensures keeps { Keeps self.old self.new }
        ensures rows { EmptiesRow row (rows_of self.old) (rows_of self.new) }
    {
        empty_row_spells_nothing();
        let holder = &mut self.holder;
        let kept: &mut Guarded = &mut self.guarded;
        kept.shrinker.remove(row);
        let end = most_words(&kept.index, row);
        empty(holder, kept, row, end);
    }

    /// Empties up to this many of the unpinned rows in use, the least recently used first, and answers how
    /// many. A row counts as used when it is filled for a key and when it loses its last pin, not when a
    /// walk reads it. It takes no memory.
    #[tactic(auto, using(crate::proofs::Held::keeps_then))]
    pub fn shrink(&mut self, most: u64) -> u64
        ensures same_reference { self.new.holder.pass.ghost_name ≡ self.old.holder.pass.ghost_name }
        ensures keeps { Keeps self.old self.new }
        ensures few { result ≡ min most (length (rows_of self.old).used.listed) }
        ensures rows { EmptiesLast result (rows_of self.old) (rows_of self.new) }
    {
        for emptied in 0..most {
            let Some(row) = self.guarded.shrinker.victim() else {
                return emptied;
            };
            self.evict(row);
        }
        most
    }
}
