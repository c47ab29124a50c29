//! What the words of a row tell.

ghost use Rattle.std.specs.Prelude.{◌≡◌, ◌≤◌, ℕ, List, length, slice_index, Option, Some, IfSome};
ghost use Rattle.std.specs.Option.{option_map};
ghost use Rattle.dc_plain.specs.Facts.{Fact};
ghost use Rattle.dc_row.specs.Decoding.{IsRoomOf};
ghost use Rattle.dc_row.specs.Narrow.{widened};
ghost use Rattle.dc_row.specs.Rows.{row_shown, label_shown};
ghost use Rattle.dc_row.specs.Spelling.{Spells, SpellsText, TellsRow, TellsLabel, TellsTarget, TellsText, fields_of};
ghost use Rattle.dc_names.specs.declared.limits.TheConstants.{ROW_WORDS};
ghost use Rattle.dc_row.specs.declared.layout.TheConstants.{TEXT_START};

use crate::fields::word;
use crate::{
    KIND_UNIT, ROW_ROOM, ROW_TEXT, ROW_WORDS, Row, RowLabel, RowText, TAGS, TEXT_START, encode,
    length, number, tag, value,
};
use dc_names::Kind;

/// The row that the words spell, or `None` if they spell none, whatever the sequence count is.
#[must_use]
pub fn decode(words: &[u64]) -> Option<Row>
    ensures spelled { IfSome result (λ row. Spells words.now (row_shown row)) }
    ensures any { TellsRow words.now (option_map row_shown result) }
{
    if words.len() != ROW_WORDS {
        return None;
    }
    let row = read(words)?;
    let spelled = encode(&row)?;
    if spelled[1..] == words[1..] {
        Some(row)
    } else {
        None
    }
}

/// The row that the words spell, or whatever their fields say if they spell none.
fn read(words: &[u64]) -> Option<Row>
    ensures { TellsRow words.now (option_map row_shown result) }
{
    match tag(words) {
        0 => Some(Row::Empty),
        1 => Some(Row::Entry(number(words), label_in(words)?, target(words))),
        2 => Some(Row::Link(number(words), text_in(words)?)),
        _ => None,
    }
}

/// The label of the entry that the words spell.
fn label_in(words: &[u64]) -> Option<RowLabel>
    ensures { TellsLabel words.now (option_map label_shown result) }
{
    let text = text_in(words)?;
    if text.bytes() == b"..".as_slice() {
        Some(RowLabel::DotDot)
    } else {
        Some(RowLabel::Name(text))
    }
}

/// Where the entry that the words spell leads, of which the first four are enough. Of other words it is
/// whatever their kind and value say.
#[must_use]
// Inlined: the walk that asks tests the kind at once.
#[inline(always)]
pub fn target(words: &[u64]) -> Option<(u64, Kind)>
    ensures told { TellsTarget words.now result }
    ensures narrow { TEXT_START ≤ length words.now → TellsTarget (widened words.now) result }
{
    leads_to(word(words, 1), value(words))
}

/// Where an entry leads of whose row these are the head and the value. Of other words it is whatever
/// their kind and value say.
#[must_use]
// Inlined, as is `target`.
#[inline(always)]
pub fn leads_to(head: u64, value: u64) -> Option<(u64, Kind)>
    ensures told { (words : List ℕ) → slice_index words 1 ≡ head → slice_index words 3 ≡ value →
        TellsTarget words result }
{
    match head / KIND_UNIT % TAGS {
        1 => Some((value, Kind::Dir)),
        2 => Some((value, Kind::File)),
        3 => Some((value, Kind::Link)),
        _ => None,
    }
}

/// The text that stands in the words of a name or a link. Of other words it is whatever they have there,
/// or `None` if they are not as many as a row has or say that it is longer than a row has room for.
#[must_use]
pub fn text_in(words: &[u64]) -> Option<RowText>
    ensures { (fact : Option Fact) → Spells words.now fact → result ≡ Some (fields_of fact).text }
{
    let len = length(words) as usize;
    if words.len() != ROW_WORDS || len > ROW_TEXT {
        return None;
    }
    RowText::of(&room_of(words)[..len])
}

/// The text of the link that a row with these first words, and zeros past them, spells.
#[must_use]
#[inline(always)]
pub fn spelled_text(words: &[u64]) -> RowText
    requires size { (TEXT_START ≤ length words.now) × (length words.now ≤ ROW_WORDS) }
    requires spelled { SpellsText (widened words.now) }
    ensures told { TellsText (widened words.now) (Some result) }
{
    RowText::from_room(room_of(words), length(words) as usize)
}

/// All the bytes that the words have for a text, side by side, with zeros past them.
#[inline(always)]
fn room_of(words: &[u64]) -> [u8; ROW_ROOM]
    requires size { (TEXT_START ≤ length words.now) × (length words.now ≤ ROW_WORDS) }
    ensures { IsRoomOf words.now result }
{
    let mut room = [0; ROW_ROOM];
    for i in TEXT_START..words.len() {
        let at = 8 * (i - TEXT_START);
        room[at..at + 8].copy_from_slice(&words[i].to_le_bytes());
    }
    room
}
