//! Rows are pinned while a walk reads them, so that no other key gets them meanwhile.

ghost use Rattle.std.specs.Prelude.{◌≡◌, ◌<◌, IfOk, IfSome};
ghost use Rattle.dc_index.specs.Hashed.{key_in};
ghost use Rattle.dc_rows.specs.Guards.{seat_of, rows_of, Keeps};
ghost use Rattle.dc_rows.specs.RowChanges.{Gets, UnpinsAll, UnpinsRow};
ghost use Rattle.dc_table.specs.Passes.{share};

use crate::evicting::empty;
use crate::guard::Guard;
use crate::writing::most_words;
use dc_index::HashedKey;
use dc_names::NoMemory;
use dc_row::empty_row_spells_nothing;
use dc_shrink::PinFault;
use dc_table::Guarded;
use std::alloc::Global;

impl Guard<'_> {
    /// Pins the row of a key. If no row has the key, one is filled with what the tree has under it. `None`
    /// if no row can be had or filled, or if the row has as many pins as a row may have.
    pub fn pin(&mut self, alloc: Global, key: &HashedKey<'_>) -> Result<Option<u64>, NoMemory>
        ensures same_reference { self.new.holder.pass.ghost_name ≡ self.old.holder.pass.ghost_name }
        ensures keeps { Keeps self.old self.new }
        ensures row { IfOk result (λ found. IfSome found (λ row. row < (share (seat_of self.new)).rows)) }
        ensures rows { Gets (key_in key.now) 1 (rows_of self.old) (rows_of self.new) result }
    {
        let Some(row) = self.fill(alloc, key)? else {
            return Ok(None);
        };
        match self.guarded.shrinker.pin(row) {
            Ok(()) => Ok(Some(row)),
            Err(PinFault::Most) => Ok(None),
            Err(PinFault::NoMemory) => Err(NoMemory),
        }
    }

    /// Takes a pin from a row, if it has one: a change may have emptied the row since it was pinned. A row
    /// that can't be listed as its last pin goes is emptied.
    pub fn unpin(&mut self, row: u64)
        ensures same_reference { self.new.holder.pass.ghost_name ≡ self.old.holder.pass.ghost_name }
        ensures keeps { Keeps self.old self.new }
        ensures rows { UnpinsRow row (rows_of self.old) (rows_of self.new) }
    {
        empty_row_spells_nothing();
        let holder = &mut self.holder;
        let kept: &mut Guarded = &mut self.guarded;
        if kept.shrinker.pins(row) == 0 {
            return;
        }
        if let Err(NoMemory) = kept.shrinker.unpin(row) {
            let end = most_words(&kept.index, row);
            empty(holder, kept, row, end);
        }
    }

    /// Takes a pin from each of these rows that has one.
    #[tactic(auto, using(crate::proofs::Held::keeps_then))]
    pub fn unpin_all(&mut self, rows: &[u64])
        ensures same_reference { self.new.holder.pass.ghost_name ≡ self.old.holder.pass.ghost_name }
        ensures keeps { Keeps self.old self.new }
        ensures rows { UnpinsAll rows.now (rows_of self.old) (rows_of self.new) }
    {
        for row in rows {
            self.unpin(*row);
        }
    }
}
