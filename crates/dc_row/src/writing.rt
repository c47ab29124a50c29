//! The words that spell a row.

ghost use Rattle.std.specs.Prelude.{◌≡◌, ◌≤◌, ◌<◌, ◌↔◌, ◌+◌, ◌*◌, length, slice_index, Some, IfSome, IsSome, IsTrue};
ghost use Rattle.dc_names.specs.Words.{AreBytes};
ghost use Rattle.dc_plain.specs.Facts.Fact.{Reads};
ghost use Rattle.dc_plain.specs.KeysShown.{key_shown};
ghost use Rattle.dc_row.specs.Rows.{row_shown};
ghost use Rattle.dc_row.specs.Spelling.{Spells, entry_of, has_spelling, is_numbered, kind_code, target_number, text_word, fields, IsSpelled};
ghost use Rattle.dc_names.specs.declared.limits.TheConstants.{ROW_WORDS, ROW_TEXT};
ghost use Rattle.dc_row.specs.declared.layout.TheConstants.{KIND_UNIT, LENGTH_UNIT};

use crate::entry::has_room;
use crate::{KIND_UNIT, LENGTH_UNIT, ROW_WORDS, Row, RowLabel, RowText, TEXT_START};
use dc_names::{Kind, Name, pack_from, parse};
use dc_plain::{Key, Target};

/// The words of a row, with 0 for its sequence count, or `None` if nothing spells the row.
///
/// A name is one of `dc_names`, a link's text a path without a fault, a dot-dot leads to a
/// directory if anywhere, and no number is 0.
#[must_use]
pub fn encode(row: &Row) -> Option<[u64; ROW_WORDS]>
    ensures spelled { IfSome result (λ words. Spells words (row_shown row.now)) }
    ensures count { IfSome result (λ words. slice_index words 0 ≡ 0) }
    ensures none { IsSome result ↔ IsTrue (has_spelling (row_shown row.now)) }
{
    if !has_spelling(row) {
        return None;
    }
    Some(match row {
        Row::Empty => spell(0, 0, 0, 0, b""),
        Row::Entry(dir, RowLabel::Name(name), target) => spell(
            1,
            kind_code(target),
            *dir,
            target_number(target),
            name.bytes(),
        ),
        Row::Entry(dir, RowLabel::DotDot, target) => spell(
            1,
            kind_code(target),
            *dir,
            target_number(target),
            b"..",
        ),
        Row::Link(number, text) => spell(2, 0, *number, 0, text.bytes()),
    })
}

/// The words of a row that tells where a key's entry leads, as `encode` gives them, or `None` if nothing
/// spells the row: of a text there is no entry.
// It takes the key as it is: a `Row` has room for the longest text, and would be copied several times. Inlined, as is
// `spell`: handed back by a call, the words would be copied at each step (measured).
#[must_use]
#[inline(always)]
pub fn encode_entry(key: Key<'_>, target: Option<Target>) -> Option<[u64; ROW_WORDS]>
    ensures spelled { IfSome result (λ words. Spells words (entry_of (key_shown key.entry) target)) }
    ensures count { IfSome result (λ words. slice_index words 0 ≡ 0) }
    ensures none { IsSome result ↔ IsTrue (has_spelling (entry_of (key_shown key.entry) target)) }
{
    let kind = kind_code(&target);
    if !is_numbered(&target) || !has_room(key, kind) {
        return None;
    }
    let value = target_number(&target);
    Some(spell(1, kind, key.number, value, key.label.bytes()))
}

/// Whether a row has words.
fn has_spelling(row: &Row) -> bool
    ensures { result ≡ has_spelling (row_shown row.now) }
{
    match row {
        Row::Empty => true,
        Row::Entry(dir, RowLabel::Name(name), target) => {
            *dir != 0 && Name::new(name.bytes()).is_some() && is_numbered(target)
        }
        Row::Entry(dir, RowLabel::DotDot, target) => {
            *dir != 0 && is_numbered(target) && kind_code(target) <= 1
        }
        Row::Link(number, text) => can_be_text(*number, text),
    }
}

/// Whether a text can stand in a row as that of a link.
fn can_be_text(number: u64, text: &RowText) -> bool
    ensures { result ≡ has_spelling (Some (Reads number text.now)) }
{
    number != 0 && parse(text.bytes()).is_ok()
}

/// Whether the number of a target, if there is one, isn't 0.
pub(crate) fn is_numbered(target: &Option<(u64, Kind)>) -> bool
    ensures { result ≡ is_numbered target.now }
{
    match target {
        Some((number, _)) => *number != 0,
        None => true,
    }
}

/// What the head says of where an entry leads.
pub(crate) fn kind_code(target: &Option<(u64, Kind)>) -> u64
    ensures { result ≡ kind_code target.now }
{
    match target {
        None => 0,
        Some((_, Kind::Dir)) => 1,
        Some((_, Kind::File)) => 2,
        Some((_, Kind::Link)) => 3,
    }
}

/// The number of a target, or 0 for none.
pub(crate) fn target_number(target: &Option<(u64, Kind)>) -> u64
    ensures { result ≡ target_number target.now }
{
    match target {
        Some((number, _)) => *number,
        None => 0,
    }
}

/// The words of a row with these fields.
#[inline(always)]
pub(crate) fn spell(tag: u64, kind: u64, number: u64, value: u64, text: &[u8]) -> [u64; ROW_WORDS]
    requires tag { tag ≤ 2 }
    requires kind { kind ≤ 3 }
    requires room { length text.now ≤ ROW_TEXT }
    ensures words { IsSpelled result (fields tag kind number value text.now) }
    ensures bytes { AreBytes text.now }
    ensures count { slice_index result 0 ≡ 0 }
{
    let mut words = [0; ROW_WORDS];
    words[1] = head_of(tag, kind, text);
    words[2] = number;
    words[3] = value;
    let end = TEXT_START + text.len().div_ceil(8);
    for i in TEXT_START..end {
        words[i] = text_word(text, i - TEXT_START);
    }
    words
}

/// The head of a row with a tag, a kind and a text.
// Inlined, as is `text_word`: each row that is compared asks for it.
#[inline(always)]
pub(crate) fn head_of(tag: u64, kind: u64, text: &[u8]) -> u64
    requires tag { tag ≤ 2 }
    requires kind { kind ≤ 3 }
    requires room { length text.now ≤ ROW_TEXT }
    ensures head { result ≡ tag + LENGTH_UNIT * length text.now + KIND_UNIT * kind }
    ensures bytes { AreBytes text.now }
{
    tag + LENGTH_UNIT * text.len() as u64 + KIND_UNIT * kind
}

/// Eight bytes of a text in one word, with zeros past its end.
// Inlined: it is called four times for each row that is compared, mostly for bytes past the end.
#[inline(always)]
pub(crate) fn text_word(text: &[u8], at: usize) -> u64
    requires { at < ROW_WORDS }
    ensures { result ≡ text_word text.now at }
{
    let from = 8 * at;
    if text.len() <= from {
        return 0;
    }
    match text[from..].first_chunk::<8>() {
        Some(block) => u64::from_le_bytes(*block),
        None => pack_from(text, from),
    }
}
