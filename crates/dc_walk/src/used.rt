//! The room of a walk: the rows whose answers it rests on, and the row that is being read.

ghost use Rattle.std.specs.Prelude.{◌≡◌, ◌≢◌, ◌<◌, ◌≤◌, ◌+◌, ◌*◌, ◌==◌, ◌∷◌, ◌++◌, ◌↔◌, [], Some, length, slice_index, take, IfSome, IfNone, IsTrue};
ghost use Rattle.dc_plain.specs.Facts.Label.{Text};
ghost use Rattle.dc_plain.specs.KeysShown.{key_shown};
ghost use Rattle.dc_plain.specs.Trees.{told_of, Tree};
ghost use Rattle.dc_resolve.specs.Needs.{IsUntold};
ghost use Rattle.dc_row.specs.Narrow.{widened};
ghost use Rattle.dc_row.specs.Spelling.{SpellsText, TellsOf, TellsTarget, TellsText};
ghost use Rattle.dc_names.specs.declared.limits.TheConstants.{ROW_WORDS, MOST_USED, MOST_USED_BYTES};
ghost use Rattle.dc_row.specs.declared.layout.TheConstants.{TEXT_START};
ghost use Rattle.dc_table.specs.Holders.{table_of};
ghost use Rattle.dc_table.specs.Passes.{view, share, Fits, IsIdle, StaysOut};
ghost use Rattle.dc_walk.specs.Finds.{told_in, AllSpelled, StandsAt};
ghost use Rattle.dc_walk.specs.Placing.{AreTrue};
ghost use Rattle.dc_walk.specs.Probes.{IsReading, ReadsRest};
ghost use Rattle.dc_walk.specs.Rooms.{used_at};

use crate::link::LinkText;
use crate::probe::{are_past, read_words};
use crate::{MOST_USED, ROOM_WORDS};
use dc_names::Kind;
use dc_plain::Key;
use dc_row::{ROW_WORDS, leads_to, number, tells_by_first, words_have_the_fact_they_spell};
use dc_table::{Pass, Reader};
use std::marker::Model;

/// A row that answered: its number, the place of its note among those of the walk, and where its words
/// begin and end among those of the room.
#[derive(Clone, Copy, Drop)]
struct Stored {
    row: u64,
    place: u64,
    start: usize,
    end: usize,
}

/// Room for the rows that a walk rests on, which the next walk may use again. A row is read where it stays
/// if it answers: behind the last that did. Of one that did those words alone are kept that tell
/// something, as rows are wide and most names short.
#[derive(Drop)]
pub struct Room {
    rows: [Stored; MOST_USED],
    len: usize,
    words: [u64; ROOM_WORDS],
    end: usize,
}

impl Model for Room {
    ghost use Rattle.dc_walk.specs.Rooms.{Kept, IsRoom, kept_in};

    ghost Value = { Kept };

    ghost view = { λ r. kept_in r.rows r.len r.words r.end };

    ghost invariant = { λ r. IsRoom r.rows r.len r.words r.end };
}

impl Room {
    /// Room that no walk has used yet. It takes no memory besides its own.
    #[must_use]
    pub fn new() -> Room
        ensures { (result.items ≡ []) × (result.spent ≡ 0) }
    {
        let blank = Stored {
            row: 0,
            place: 0,
            start: 0,
            end: 0,
        };
        let rows = [blank; MOST_USED];
        let words = [0; ROOM_WORDS];
        Room {
            rows,
            len: 0,
            words,
            end: 0,
        }
    }

    /// Forgets the rows of an earlier walk. What they told stays in its place, and nothing reads it there.
    pub(crate) fn clear(&mut self)
        ensures { (self.new.items ≡ []) × (self.new.spent ≡ 0) }
    {
        self.len = 0;
        self.end = 0;
    }

    /// How many rows are kept.
    #[inline(always)]
    pub(crate) fn len(&self) -> usize
        ensures many { result ≡ length self.now.items }
        ensures fits { result ≤ MOST_USED }
    {
        self.len
    }

    /// Whether no row more can be kept.
    #[inline(always)]
    pub(crate) fn is_full(&self) -> bool
        ensures full { result ≡ (length self.now.items == MOST_USED) }
        ensures fits { length self.now.items ≤ MOST_USED }
    {
        self.len == MOST_USED
    }

    /// The number of a row that was kept.
    #[inline(always)]
    pub(crate) fn row_at(&self, at: usize) -> u64
        requires kept { at < length self.now.items }
        ensures { result ≡ (used_at self.now.items at).row }
    {
        // For the proof, here and in the accessors below: that there are so few places.
        let _len = self.len();
        self.rows[at].row
    }

    /// The place of the note of a row that was kept.
    #[inline(always)]
    pub(crate) fn place_at(&self, at: usize) -> u64
        requires kept { at < length self.now.items }
        ensures { result ≡ (used_at self.now.items at).place }
    {
        let _len = self.len();
        self.rows[at].place
    }

    /// The first words of a row that was kept. All its words past them are zero.
    #[inline(always)]
    pub(crate) fn words_at(&self, at: usize) -> &[u64]
        requires kept { at < length self.now.items }
        ensures words { widened result.now ≡ (used_at self.now.items at).words }
        ensures size { (TEXT_START ≤ length result.now) × (length result.now ≤ ROW_WORDS) }
    {
        let one = &self.rows[..self.len][at];
        &self.words[one.start..one.end]
    }

    /// The sequence count with which a row that was kept was noted.
    #[inline(always)]
    pub(crate) fn count_at(&self, at: usize) -> u64
        requires kept { at < length self.now.items }
        ensures { result ≡ slice_index (used_at self.now.items at).words 0 }
    {
        let _len = self.len();
        self.words[self.rows[at].start]
    }

    /// Where a row that was kept says that its entry leads.
    #[inline(always)]
    pub(crate) fn target_at(&self, at: usize) -> Option<(u64, Kind)>
        requires kept { at < length self.now.items }
        ensures { TellsTarget (used_at self.now.items at).words result }
    {
        let _len = self.len();
        let start = self.rows[at].start;
        leads_to(self.words[start + 1], self.words[start + 3])
    }

    /// The text of a link that a row that was kept has.
    #[inline(always)]
    pub(crate) fn text_at(&self, at: usize) -> LinkText
        requires kept { at < length self.now.items }
        requires spelled { SpellsText (used_at self.now.items at).words }
        ensures { TellsText (used_at self.now.items at).words (Some result.text) }
    {
        LinkText::of(self.words_at(at))
    }

    /// Where a key's entry leads, if there is a row at a place that tells of it.
    pub fn told_at(&self, at: usize, key: Key<'_>) -> Option<Option<(u64, Kind)>>
        requires entry { (key_shown key).label ≢ Text }
        ensures { (t : Tree) → AreTrue t self.now → IfSome result (λ target.
            (told_of t).entry (key_shown key.entry).number (key_shown key.entry).label ≡ Some target) }
    {
        words_have_the_fact_they_spell();
        if at < self.len() && self.tells_at(at, key) {
            Some(self.target_at(at))
        } else {
            None
        }
    }

    /// Whether a row that was kept tells of a key.
    pub(crate) fn tells_at(&self, at: usize, key: Key<'_>) -> bool
        requires kept { at < length self.now.items }
        ensures { IsTrue result ↔ TellsOf (used_at self.now.items at).words (key_shown key.entry) }
    {
        tells_by_first(self.words_at(at), key)
    }

    /// The words of the row that is being read.
    #[inline(always)]
    pub(crate) fn next(&self) -> &[u64]
        ensures words { result.now ≡ self.now.next }
        ensures size { length self.now.next ≡ ROW_WORDS }
    {
        &self.words[self.end..self.end + ROW_WORDS]
    }

    /// Puts a row's first words where the row that is being read stands.
    #[inline(always)]
    pub(crate) fn put(&mut self, first: &[u64])
        requires few { length first.now ≤ ROW_WORDS }
        ensures same { (self.new.items ≡ self.old.items) × (self.new.spent ≡ self.old.spent) }
        ensures first { take (length first.now) self.new.next ≡ first.now }
        ensures size { length self.new.next ≡ ROW_WORDS }
    {
        self.words[self.end..self.end + first.len()].copy_from_slice(first);
    }

    /// Reads the rest of the row that was noted last, whose head and number were read, and answers whether
    /// the words from one on are zero. The words before it are stored.
    #[inline(always)]
    pub(crate) fn read_rest(
        &mut self,
        reader: Reader<'_>,
        pass: &mut Pass,
        row: u64,
        told: usize,
    ) -> bool
        requires pass { Fits (table_of reader) pass.old × IsIdle pass.old }
        requires row { row < (share pass.old).rows }
        requires reading { IsReading (view pass.old) row self.old.next 3 }
        requires told { (TEXT_START ≤ told) × (told ≤ ROW_WORDS) }
        ensures same { StaysOut pass.old pass.new }
        ensures items { (self.new.items ≡ self.old.items) × (self.new.spent ≡ self.old.spent) }
        ensures top { take 3 self.new.next ≡ take 3 self.old.next }
        ensures size { length self.new.next ≡ ROW_WORDS }
        ensures read { ReadsRest pass.old pass.new row self.old.next 3 (take told self.new.next) result }
    {
        // One reference for all words, as each further step may have written what lies behind `self`.
        let words = &mut self.words[self.end..self.end + ROW_WORDS];
        read_words(reader, pass, row, words, 3, told);
        are_past(reader, pass, row, words, told)
    }

    /// Keeps the row that was read, whose note has this place, by this many of its first words, and answers
    /// where it stands.
    #[inline(always)]
    pub(crate) fn keep(&mut self, row: u64, place: u64, told: usize) -> usize
        requires some { length self.old.items < MOST_USED }
        requires told { (TEXT_START ≤ told) × (told ≤ ROW_WORDS) }
        requires fits { 8 * (self.old.spent + told) ≤ 40 * MOST_USED + MOST_USED_BYTES }
        ensures kept { self.new.items ≡ self.old.items
            ++ record { row = row; place = place; words = widened (take told self.old.next) } ∷ [] }
        ensures spent { self.new.spent ≡ self.old.spent + told }
        ensures last { result ≡ length self.old.items }
    {
        let at = self.len;
        let start = self.end;
        let end = start + told;
        self.rows[at] = Stored {
            row,
            place,
            start,
            end,
        };
        self.len += 1;
        self.end = end;
        at
    }
}

/// The place of the kept row that tells of a key, if one does.
#[inline(always)]
pub(crate) fn standing(room: &Room, key: Key<'_>) -> Option<usize>
    requires spelled { AllSpelled room.now.items }
    ensures some { IfSome result (StandsAt room.now.items (key_shown key.entry)) }
    ensures none { IfNone result (let key = key_shown key.entry in
        IsUntold (told_in room.now.items) key.number key.label) }
{
    words_have_the_fact_they_spell();
    for i in 0..room.len() {
        if number(room.words_at(i)) == key.number && room.tells_at(i, key) {
            return Some(i);
        }
    }
    None
}
