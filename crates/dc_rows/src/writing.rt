//! The words of a row, written under the lock.

ghost use Rattle.std.specs.Prelude.{◌≡◌, ◌<◌, length};
ghost use Rattle.dc_events.specs.Rows.{base_of, count, most};
ghost use Rattle.dc_index.specs.Slots.{slot_of};
ghost use Rattle.dc_rows.specs.Changes.{OnlyWrites};
ghost use Rattle.dc_rows.specs.Narrow.{most_words, HasFrom};
ghost use Rattle.dc_rows.specs.Rows.{Wrote};
ghost use Rattle.dc_table.specs.Changes.{tree_now, words_of};
ghost use Rattle.dc_table.specs.Holders.{pass_of};
ghost use Rattle.dc_table.specs.Passes.{view, share, CanWrite};
ghost use Rattle.dc_table.specs.Rows.{MayStand};

use dc_index::Index;
use dc_row::{ROW_WORDS, TEXT_START};
use dc_table::Holder;

/// How many of a row's words may tell something, by the key that it has: past them a row that fits its slot
/// is zero.
pub(crate) fn most_words(index: &Index, row: u64) -> usize
    requires { row < length index.now }
    ensures { result ≡ most_words (slot_of index.now row) }
{
    (TEXT_START + index.most_text(row).div_ceil(8)).min(ROW_WORDS)
}

/// Writes the words of an odd row after its count, up to a place from which on it has them already, and
/// opens it.
pub(crate) fn open_with(holder: &mut Holder<'_>, row: u64, words: &[u64; ROW_WORDS], end: usize)
    requires row { row < (share (pass_of holder.old)).rows }
    requires size { let p = pass_of holder.old in length (words_of p) ≡ base_of (share p).rows }
    requires odd { CanWrite (view (pass_of holder.old)) row }
    requires low { count (words_of (pass_of holder.old)) row < most }
    requires stands { let p = pass_of holder.old in
        MayStand (tree_now p) (words_of p) row words.now }
    requires has { HasFrom end (words_of (pass_of holder.old)) row words.now }
    ensures same_reference { holder.new.pass.ghost_name ≡ holder.old.pass.ghost_name }
    ensures pass { OnlyWrites (pass_of holder.old) (pass_of holder.new) }
    ensures wrote { Wrote (words_of (pass_of holder.old)) (words_of (pass_of holder.new)) row words.now 1 }
{
    // A word that isn't written is as it was: the end of a longer name would stand behind a shorter one.
    // But from `end` on the row has its words already. It is opened last: a reader that finds it even must
    // find them all.
    for i in 1..end {
        holder.write_word(row, i as u64, words[i]);
    }
    holder.open_row(row);
}
