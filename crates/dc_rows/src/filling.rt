//! Rows are filled for keys under the lock.

ghost use Rattle.std.specs.Prelude.{◌≡◌, false, None, IfOk, IfSome};
ghost use Rattle.dc_index.specs.Hashed.{key_in};
ghost use Rattle.dc_index.specs.Slots.{slot_of, IsRowOf};
ghost use Rattle.dc_index.specs.Slots.Slot.{Holds as Held};
ghost use Rattle.dc_plain.specs.KeysShown.{key_shown};
ghost use Rattle.dc_row.specs.declared.TheConstants.{EMPTY_ROW};
ghost use Rattle.dc_rows.specs.Changes.{KeepsTree, OnlyWrites, RestAt};
ghost use Rattle.dc_rows.specs.Filling.{GivenAt, without_use};
ghost use Rattle.dc_rows.specs.Guards.{kept_by, rows_of, seat_of, Keeps};
ghost use Rattle.dc_rows.specs.Narrow.{HasFrom};
ghost use Rattle.dc_rows.specs.Outcomes.{Fills};
ghost use Rattle.dc_rows.specs.RowChanges.{Gets, IsFilled, LeadsTo, OnlyRow, SamePins};
ghost use Rattle.dc_shrink.specs.Listings.{dropped, pins_of};
ghost use Rattle.dc_shrink.specs.Uses.{SetsUse};
ghost use Rattle.dc_table.specs.Changes.{tree_now, words_of};
ghost use Rattle.dc_table.specs.Holders.{pass_of, rows_held};
ghost use Rattle.dc_table.specs.Rows.{IsOf};

use crate::evicting::{empty, rewrite};
use crate::facts::{entry_words, words_for};
use crate::guard::Guard;
use crate::writing::most_words;
use dc_index::HashedKey;
use dc_names::NoMemory;
use dc_plain::{Key, Target};
use dc_row::{ROW_WORDS, empty_row_spells_nothing, rows_end_in_zeros, told_words};
use dc_table::{Guarded, Holder};
use std::alloc::Global;

/// Fills a row that was given a key, and takes it into use for that one alone. Without memory for that it
/// is emptied, and so it is if its count ends. From a place on the row and its words are zero.
fn fill_given(
    holder: &mut Holder<'_>,
    kept: &mut Guarded,
    row: u64,
    key: &Key<'_>,
    words: &[u64; ROW_WORDS],
    end: usize,
) -> Result<Option<u64>, NoMemory>
    requires given { GivenAt (pass_of holder.old) kept.old row (key_shown key.now) }
    requires words { IsOf (tree_now (pass_of holder.old)) words.now (key_shown key.now) }
    requires has { HasFrom end (words_of (pass_of holder.old)) row words.now }
    requires zeros { HasFrom end (words_of (pass_of holder.old)) row EMPTY_ROW }
    ensures same_reference { holder.new.pass.ghost_name ≡ holder.old.pass.ghost_name }
    ensures pass { OnlyWrites (pass_of holder.old) (pass_of holder.new) }
    ensures tree { KeepsTree kept.old kept.new }
    ensures rest { RestAt (pass_of holder.new) kept.new }
    ensures filled { IfOk result (λ found. IfSome found
        (IsFilled kept.new.index row (key_shown key.now))) }
    ensures unused { SetsUse row false kept.old.shrinker (dropped kept.old.shrinker row) }
    ensures rows { OnlyRow row (without_use (rows_held holder.old kept.old) row)
        (rows_held holder.new kept.new) }
    ensures unpinned { pins_of kept.new.shrinker row ≡ 0 }
{
    empty_row_spells_nothing();
    let Ok(()) = kept.shrinker.renew(row) else {
        empty(holder, kept, row, end);
        return Err(NoMemory);
    };
    if rewrite(holder, row, words, end) {
        return Ok(Some(row));
    }
    kept.index.retire(row);
    kept.shrinker.remove(row);
    holder.count_row_emptied();
    Ok(None)
}

impl Guard<'_> {
    /// The row of a key. One that has none gets a row of its bucket, which is filled with what the store
    /// has under the key. `None` if no row can be had, or no row can tell it.
    #[tactic(auto, using(crate::proofs::Pinning::gets_no_pin))]
    pub fn fill(&mut self, alloc: Global, key: &HashedKey<'_>) -> Result<Option<u64>, NoMemory>
        ensures same_reference { self.new.holder.pass.ghost_name ≡ self.old.holder.pass.ghost_name }
        ensures keeps { Keeps self.old self.new }
        ensures row { IfOk result (λ found. IfSome found (λ row.
            slot_of (kept_by self.new).index row ≡ Held (key_in key.now))) }
        ensures rows { Gets (key_in key.now) 0 (rows_of self.old) (rows_of self.new) result }
        ensures pins { SamePins (rows_of self.old) (rows_of self.new) }
    {
        if let Some(row) = self.guarded.index.row_of_hashed(key) {
            return Ok(Some(row));
        }
        let Some(words) = words_for(&self.guarded.store, &key.key) else {
            return Ok(None);
        };
        self.fill_new(alloc, key, &words)
    }

    /// The row of an entry's key, as `fill` gives it, for a caller that has asked the store where the
    /// entry leads: the store is not searched again. `None` if no row can be had, or no row can tell
    /// it, and `NoMemory` if memory for the key was refused.
    #[tactic(auto, using(crate::proofs::Pinning::gets_no_pin))]
    pub fn fill_entry(
        &mut self,
        alloc: Global,
        key: &HashedKey<'_>,
        target: Option<Target>,
    ) -> Result<Option<u64>, NoMemory>
        requires target { LeadsTo (kept_by self.old).store (key_in key.now) target }
        ensures same_reference { self.new.holder.pass.ghost_name ≡ self.old.holder.pass.ghost_name }
        ensures keeps { Keeps self.old self.new }
        ensures fills { Fills (key_in key.now) self.old self.new result }
        ensures pins { SamePins (rows_of self.old) (rows_of self.new) }
    {
        if let Some(row) = self.guarded.index.row_of_hashed(key) {
            return Ok(Some(row));
        }
        let Some(words) = entry_words(&key.key, target) else {
            return Ok(None);
        };
        self.fill_new(alloc, key, &words)
    }

    /// Fills a row of its bucket for a key that has none, with these words.
    fn fill_new(
        &mut self,
        alloc: Global,
        key: &HashedKey<'_>,
        words: &[u64; ROW_WORDS],
    ) -> Result<Option<u64>, NoMemory>
        requires absent { IsRowOf (kept_by self.old).index (key_in key.now) None }
        requires words { IsOf (tree_now (seat_of self.old)) words.now (key_in key.now) }
        ensures same_reference { self.new.holder.pass.ghost_name ≡ self.old.holder.pass.ghost_name }
        ensures keeps { Keeps self.old self.new }
        ensures fills { Fills (key_in key.now) self.old self.new result }
    {
        rows_end_in_zeros();
        let holder = &mut self.holder;
        let kept: &mut Guarded = &mut self.guarded;
        let Some(row) = kept.index.choose(&kept.shrinker, key) else {
            return Ok(None);
        };
        // A longer name that stood in the row would leave its end there. So the former key is asked while
        // it is known: past its words and the new ones all are zero.
        let former = most_words(&kept.index, row);
        let end = told_words(words).max(former);
        let evicts = kept.index.has_key(row);
        kept.index.set(alloc, row, &key.key)?;
        if evicts {
            holder.count_eviction();
        } else {
            holder.count_row_in_use();
        }
        fill_given(holder, kept, row, &key.key, words, end)
    }
}
