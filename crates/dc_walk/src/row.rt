//! A look at one row for what it tells of a key.

ghost use Rattle.std.specs.Prelude.{◌≡◌, ◌<◌, ◌+◌, false};
ghost use Rattle.dc_plain.specs.KeysShown.{key_shown};
ghost use Rattle.dc_table.specs.Holders.{table_of};
ghost use Rattle.dc_table.specs.Passes.{share, StaysOut};
ghost use Rattle.dc_plain.specs.Facts.Label.{Entry};
ghost use Rattle.dc_walk.specs.Probes.{IsShort, MayReadOn, SpellsShort, TakesRow, bare_label, noted_in};
ghost use Rattle.dc_walk.specs.Rooms.{HasPlace};
ghost use Rattle.dc_walk.specs.Seeks.{key_in, LooksOn, MaySeek};
ghost use Rattle.dc_walk.specs.Sights.{Saw};
ghost use Rattle.dc_names.specs.declared.limits.TheConstants.{BUCKET_ROWS};

use crate::probe::{Extent, Noted, may_tell, read_short, read_top};
use crate::rows::Rows;
use crate::sought::Sought;
use crate::used::Room;
use dc_names::Name;
use dc_plain::{Key, Label};
use dc_row::{
    SHORT_TEXT, SHORT_WORDS, TEXT_START, leads, rows_end_in_zeros, rows_have_their_text,
    tells_by_first, told_words, words_have_the_fact_they_spell,
};
use dc_table::{Pass, Reader};

/// What a row answers.
pub(crate) enum Seen {
    /// It is being changed.
    Odd,
    /// It was read whole, and tells of another key, or of none.
    Other,
    /// Its head, its number or a word of its text is not the key's, and no more of it was read.
    Left,
    /// It tells of the key, and is the last of the used rows.
    Tells(usize),
}

/// What the rest of a row comes to.
pub(crate) enum Taken {
    /// It was read whole, and tells of another key, or of none.
    Other,
    /// A word of its text is not the key's, and no more of it was read.
    Left,
    /// It tells of the key, and is the last of the used rows.
    Tells(usize),
}

/// Reads the rest of a row whose top was read, for a key with a short name, which these words spell, and
/// keeps the row if it tells of the key. If it is `brief` it may leave the row.
#[inline(always)]
fn take_short(
    room: &mut Room,
    reader: Reader<'_>,
    pass: &mut Pass,
    noted: Noted,
    key: Key<'_>,
    words: &[u64; SHORT_WORDS],
    brief: bool,
) -> Taken
    requires on { MayReadOn (table_of reader) pass.old noted }
    requires place { HasPlace room.old (key_shown key).label }
    requires short { IsShort (key_shown key).label }
    requires spelled { SpellsShort words.now (key_shown key).label }
    ensures same { StaysOut pass.old pass.new }
    ensures takes { TakesRow pass.old pass.new noted (key_shown key.entry) room.old room.new
        brief result }
{
    rows_end_in_zeros();
    rows_have_their_text();
    let text = key.label.bytes();
    let Some((value, is_its)) = read_short(reader, pass, noted, words, brief) else {
        return Taken::Left;
    };
    let top = noted.top;
    if !is_its || !leads(top.head, top.number, value, key) {
        return Taken::Other;
    }
    // The key's words, and not the row's, which weren't kept: `is_its` says that they are the same, and that
    // zeros follow, so no byte is lost that a check could miss.
    let first = [
        top.count, top.head, top.number, value, words[0], words[1], words[2], words[3],
    ];
    room.put(&first);
    Taken::Tells(room.keep(noted.row, noted.place, TEXT_START + text.len().div_ceil(8)))
}

/// The number of a row, and the place of its note among those of the walk.
#[derive(Clone, Copy)]
pub(crate) struct RowAt {
    pub row: u64,
    pub place: u64,
}

/// Reads the rest of a row whose top stands in a room, and keeps it there if it tells of a key.
#[inline(always)]
fn take_wide(room: &mut Room, reader: Reader<'_>, pass: &mut Pass, at: RowAt, key: Key<'_>) -> Taken
    requires on { MayReadOn (table_of reader) pass.old (noted_in at room.old) }
    requires place { HasPlace room.old (key_shown key).label }
    ensures same { StaysOut pass.old pass.new }
    ensures takes { TakesRow pass.old pass.new (noted_in at room.old) (key_shown key.entry)
        room.old room.new false result }
{
    rows_end_in_zeros();
    let told = told_words(room.next());
    let is_narrow = room.read_rest(reader, pass, at.row, told);
    if !is_narrow || !tells_by_first(&room.next()[..told], key) {
        return Taken::Other;
    }
    Taken::Tells(room.keep(at.row, at.place, told))
}

/// Reads the rest of a row, as `take_wide`, for a name in a directory of this number.
// Kept out of line, as few rows have long names. What it is handed fits registers: a struct in memory, as a
// key, would be cleared for each row, also for those with short names (measured).
#[inline(never)]
fn take_long(
    room: &mut Room,
    reader: Reader<'_>,
    pass: &mut Pass,
    at: RowAt,
    number: u64,
    name: Name<'_>,
) -> Taken
    requires on { MayReadOn (table_of reader) pass.old (noted_in at room.old) }
    requires place { HasPlace room.old (Entry name.bytes.now) }
    ensures same { StaysOut pass.old pass.new }
    ensures takes { TakesRow pass.old pass.new (noted_in at room.old)
        (record { number = number; label = Entry name.entry.bytes.now }) room.old room.new
        false result }
{
    let label = Label::Name(name);
    take_wide(room, reader, pass, at, Key { number, label })
}

/// Reads the rest of a row, as `take_wide`, for the text or the dot-dot of an inode of this number.
// Kept out of line, as `take_long`.
#[inline(never)]
fn take_bare(
    room: &mut Room,
    reader: Reader<'_>,
    pass: &mut Pass,
    at: RowAt,
    number: u64,
    is_text: bool,
) -> Taken
    requires on { MayReadOn (table_of reader) pass.old (noted_in at room.old) }
    requires place { HasPlace room.old (bare_label is_text) }
    ensures same { StaysOut pass.old pass.new }
    ensures takes { TakesRow pass.old pass.new (noted_in at room.old)
        (record { number = number; label = bare_label is_text }) room.old room.new false result }
{
    let label = if is_text { Label::Text } else { Label::DotDot };
    take_wide(room, reader, pass, at, Key { number, label })
}

/// Reads the rest of a row whose top was read, and keeps the row if it tells of a key. If it is `brief` it
/// may leave the row.
#[inline(always)]
fn take_in(
    room: &mut Room,
    reader: Reader<'_>,
    pass: &mut Pass,
    noted: Noted,
    sought: &Sought<'_>,
    brief: bool,
) -> Taken
    requires on { MayReadOn (table_of reader) pass.old noted }
    requires place { HasPlace room.old (key_in sought.now).label }
    ensures same { StaysOut pass.old pass.new }
    ensures takes { TakesRow pass.old pass.new noted (key_in sought.now) room.old room.new
        brief result }
{
    let key = sought.key;
    match key.label {
        Label::Name(name) if name.bytes().len() <= SHORT_TEXT => {
            // Made anew, with a label that the compiler knows: it then tests it no more (measured).
            let label = Label::Name(name);
            let key = Key {
                number: key.number,
                label,
            };
            take_short(room, reader, pass, noted, key, &sought.short, brief)
        }
        label => {
            let Noted { row, place, top } = noted;
            room.put(&[top.count, top.head, top.number]);
            let at = RowAt { row, place };
            match label {
                Label::Name(name) => take_long(room, reader, pass, at, key.number, name),
                Label::DotDot => take_bare(room, reader, pass, at, key.number, false),
                Label::Text => take_bare(room, reader, pass, at, key.number, true),
            }
        }
    }
}

/// Looks at a row for what it tells of the key that is sought. If it does, it is the last of the used ones.
/// `before` rows were looked at in this look at the bucket, and `earlier` ones in the look before.
#[inline(always)]
pub(crate) fn look_at(
    rows: &mut Rows<'_>,
    row: u64,
    sought: &Sought<'_>,
    extent: Extent,
    earlier: u64,
    before: u64,
) -> Seen
    requires may { MaySeek rows.old (key_in sought.now) (earlier + before) }
    requires row { row < (share rows.old.pass.now).rows }
    requires few { before < BUCKET_ROWS }
    requires early { earlier < BUCKET_ROWS + 1 }
    ensures on { LooksOn rows.old rows.new }
    ensures slow { rows.new.slow ≡ rows.old.slow }
    ensures saw { Saw rows.old (key_in sought.now) rows.new row extent earlier (before + 1) result }
{
    words_have_the_fact_they_spell();
    rows_end_in_zeros();
    let first = !rows.begun;
    rows.begun = true;
    let Some(top) = read_top(rows.reader, rows.pass, rows.look, row, first) else {
        return Seen::Odd;
    };
    let place = rows.made;
    rows.made += 1;
    let brief = match extent {
        Extent::Head if !may_tell(top, sought.key) => return Seen::Left,
        Extent::Head => rows.brief,
        Extent::Whole => false,
    };
    let noted = Noted { row, place, top };
    match take_in(rows.used, rows.reader, rows.pass, noted, sought, brief) {
        Taken::Tells(at) => {
            rows.filter.add(sought.hash);
            Seen::Tells(at)
        }
        Taken::Other => Seen::Other,
        Taken::Left => Seen::Left,
    }
}
