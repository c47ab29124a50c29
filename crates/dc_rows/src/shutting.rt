//! The rows of keys are shut before a change, and filled again afterwards.

ghost use Rattle.std.specs.Prelude.{◌≡◌, ◌+◌, ◌<◌, ◌≤◌, ℕ, List, Some, length, map};
ghost use Rattle.dc_index.specs.Hashed.{key_in};
ghost use Rattle.dc_index.specs.Slots.{slot_of, IsRowOf};
ghost use Rattle.dc_index.specs.Slots.Slot.{Holds as Held};
ghost use Rattle.dc_names.specs.declared.limits.TheConstants.{MOST_TOUCHED};
ghost use Rattle.dc_ops.specs.Keys.{AreDistinct};
ghost use Rattle.dc_plain.specs.Facts.{Key};
ghost use Rattle.dc_plain.specs.KeysShown.{key_shown};
ghost use Rattle.dc_rows.specs.Changes.{KeepsTree, OnlyWrites, StageAt};
ghost use Rattle.dc_rows.specs.OddRows.{AreFound, FitAt, IsFound, MayOpen, OpensNext, ShutsNext};
ghost use Rattle.dc_rows.specs.Refills.{FirstKeys, Is, Refills, Shuts};
ghost use Rattle.dc_table.specs.Changes.{tree_now};
ghost use Rattle.dc_table.specs.Holders.{pass_of};
ghost use Rattle.dc_table.specs.Passes.{view, CanShut};

use crate::facts::words_for;
use crate::writing::{most_words, open_with};
use dc_index::HashedKey;
use dc_plain::{Key, MOST_TOUCHED};
use dc_row::{EMPTY_ROW, ROW_WORDS, empty_row_spells_nothing};
use dc_table::{Guarded, Holder, MOST_COUNT};

/// A row that is shut for a change, and the key that it has, hashed once.
#[derive(Clone, Copy)]
pub(crate) struct OddRow<'a> {
    key: HashedKey<'a>,
    row: u64,
}

/// Shuts a row that has a key. `None` if that was its last opening: then it is empty, and has no key.
fn shut_row<'a>(
    holder: &mut Holder<'_>,
    kept: &mut Guarded,
    key: HashedKey<'a>,
    row: u64,
) -> Option<OddRow<'a>>
    requires fit { FitAt (pass_of holder.old) kept.old }
    requires row { IsRowOf kept.old.index (key_in key) (Some row) }
    requires even { CanShut (view (pass_of holder.old)) row }
    ensures same_reference { holder.new.pass.ghost_name ≡ holder.old.pass.ghost_name }
    ensures pass { OnlyWrites (pass_of holder.old) (pass_of holder.new) }
    ensures tree { KeepsTree kept.old kept.new }
    ensures found { IsFound kept.new.index (key_in key.entry) result }
    ensures stage { ShutsNext (pass_of holder.old) kept.old (pass_of holder.new) kept.new
        (key_in key.entry) }
    ensures rows { Shuts (Is (key_in key.entry)) holder.old kept.old holder.new kept.new }
{
    empty_row_spells_nothing();
    let odd = holder.shut_row(row);
    // A count at its end would be used again for other words. The row is emptied, and no key gets it any
    // more, so a walk that noted the count finds nothing else under it.
    if odd + 1 >= MOST_COUNT {
        open_with(holder, row, &EMPTY_ROW, ROW_WORDS);
        kept.index.retire(row);
        kept.shrinker.remove(row);
        holder.count_row_emptied();
        return None;
    }
    Some(OddRow { key, row })
}

/// Shuts the row that has a key, if any has it.
fn shut_key<'a>(holder: &mut Holder<'_>, kept: &mut Guarded, key: Key<'a>) -> Option<OddRow<'a>>
    requires fit { FitAt (pass_of holder.old) kept.old }
    requires even { (row : ℕ) → slot_of kept.old.index row ≡ Held (key_shown key)
        → CanShut (view (pass_of holder.old)) row }
    ensures same_reference { holder.new.pass.ghost_name ≡ holder.old.pass.ghost_name }
    ensures pass { OnlyWrites (pass_of holder.old) (pass_of holder.new) }
    ensures tree { KeepsTree kept.old kept.new }
    ensures found { IsFound kept.new.index (key_shown key.entry) result }
    ensures stage { ShutsNext (pass_of holder.old) kept.old (pass_of holder.new) kept.new
        (key_shown key.entry) }
    ensures rows { Shuts (Is (key_shown key.entry)) holder.old kept.old holder.new kept.new }
{
    let key = HashedKey::new(key);
    let row = kept.index.row_of_hashed(&key)?;
    shut_row(holder, kept, key, row)
}

/// Shuts the rows that have these keys, and writes which row that is for each.
// Written where the caller keeps them (measured): handed back they would be copied twice, 224 bytes under the
// lock for each change.
pub(crate) fn shut_keys<'a>(
    holder: &mut Holder<'_>,
    kept: &mut Guarded,
    keys: &[Key<'a>],
    rows: &mut [Option<OddRow<'a>>; MOST_TOUCHED],
)
    requires few { length keys.now ≤ MOST_TOUCHED }
    requires places { length rows.old ≡ MOST_TOUCHED }
    requires distinct { AreDistinct (map key_shown keys.now) }
    requires stage { StageAt (pass_of holder.old) kept.old 0 0 (map key_shown keys.now) }
    ensures same_reference { holder.new.pass.ghost_name ≡ holder.old.pass.ghost_name }
    ensures pass { OnlyWrites (pass_of holder.old) (pass_of holder.new) }
    ensures tree { KeepsTree kept.old kept.new }
    ensures distinct { AreDistinct (map key_shown keys.now) }
    ensures found { AreFound kept.new.index (map key_shown keys.now) (length keys.now) rows.new }
    ensures stage { StageAt (pass_of holder.new) kept.new 0 (length keys.now)
        (map key_shown keys.now) }
    ensures rows { Shuts (FirstKeys (length keys.now) keys.now)
        holder.old kept.old holder.new kept.new }
{
    for i in 0..keys.len() {
        rows[i] = shut_key(holder, kept, keys[i]);
    }
}

/// Fills an odd row with what the store has under its key, and opens it. If no row can tell that, it is
/// emptied and loses its key.
fn refill_row(holder: &mut Holder<'_>, kept: &mut Guarded, odd: &OddRow<'_>)
    requires store { kept.old.store ≡ tree_now (pass_of holder.old) }
    requires row { IsRowOf kept.old.index (key_in odd.now.key) (Some odd.now.row) }
    requires odd { MayOpen (pass_of holder.old) kept.old odd.now.row }
    ensures same_reference { holder.new.pass.ghost_name ≡ holder.old.pass.ghost_name }
    ensures pass { OnlyWrites (pass_of holder.old) (pass_of holder.new) }
    ensures tree { KeepsTree kept.old kept.new }
    ensures stage { OpensNext (pass_of holder.old) kept.old (pass_of holder.new) kept.new
        (key_in odd.now.key) }
    ensures rows { Refills (Is (key_in odd.now.key)) holder.old kept.old holder.new kept.new }
{
    empty_row_spells_nothing();
    let row = odd.row;
    // The odd row tells still what it told of its key, so its text is no longer than the key lets it be.
    let end = most_words(&kept.index, row);
    match words_for(&kept.store, &odd.key.key) {
        Some(words) => open_with(holder, row, &words, end),
        None => {
            open_with(holder, row, &EMPTY_ROW, end);
            kept.index.clear(row);
            kept.shrinker.remove(row);
            holder.count_row_emptied();
        }
    }
}

/// Fills and opens the odd rows of these keys, which `shut_keys` has found.
pub(crate) fn refill_keys(
    holder: &mut Holder<'_>,
    kept: &mut Guarded,
    keys: &[Key<'_>],
    rows: &[Option<OddRow<'_>>; MOST_TOUCHED],
)
    requires few { length keys.now ≤ MOST_TOUCHED }
    requires store { kept.old.store ≡ tree_now (pass_of holder.old) }
    requires distinct { AreDistinct (map key_shown keys.now) }
    requires found { AreFound kept.old.index (map key_shown keys.now) (length keys.now) rows.now }
    requires stage { StageAt (pass_of holder.old) kept.old 0 (length keys.now)
        (map key_shown keys.now) }
    ensures same_reference { holder.new.pass.ghost_name ≡ holder.old.pass.ghost_name }
    ensures pass { OnlyWrites (pass_of holder.old) (pass_of holder.new) }
    ensures tree { KeepsTree kept.old kept.new }
    ensures stage { StageAt (pass_of holder.new) kept.new (length keys.now)
        (length keys.now) (map key_shown keys.now) }
    ensures rows { Refills (FirstKeys (length keys.now) keys.now)
        holder.old kept.old holder.new kept.new }
{
    for i in 0..keys.len() {
        let Some(odd) = &rows[i] else {
            continue;
        };
        refill_row(holder, kept, odd);
    }
}
