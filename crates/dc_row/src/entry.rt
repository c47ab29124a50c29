//! A fact of a key that is sought in the words of rows, which are compared and not decoded.

ghost use Rattle.std.specs.Prelude.{◌≡◌, ◌≤◌, ◌<◌, ◌↔◌, ℕ, length, slice_index, Option, Some, IfSome, IsTrue, true, false};
ghost use Rattle.dc_names.specs.Words.{AreBytes};
ghost use Rattle.dc_plain.specs.Facts.{Target, label_bytes};
ghost use Rattle.dc_plain.specs.Facts.Fact.{Reads};
ghost use Rattle.dc_plain.specs.KeysShown.{key_shown};
ghost use Rattle.dc_row.specs.Narrow.{widened};
ghost use Rattle.dc_row.specs.Decoding.{target_by, EndsAt, HasBytes};
ghost use Rattle.dc_row.specs.Spelling.{Spells, SpellsEntry, SpellsNoEntry, SpellsText, TellsOf, TellsText, entry_of, has_spelling, is_numbered, kind_code, target_number, fields, IsSpelled};
ghost use Rattle.dc_names.specs.declared.limits.TheConstants.{ROW_WORDS, ROW_TEXT};
ghost use Rattle.dc_row.specs.declared.layout.TheConstants.{TEXT_START};

use crate::fields::word;
use crate::reading::spelled_text;
use crate::writing::{head_of, text_word};
use crate::{LENGTH_UNIT, ROW_TEXT, ROW_WORDS, RowText, TAGS, TEXT_START, kind, number, value};
use dc_names::no_piece_is_longer;
use dc_plain::{Key, Label};
use std::simd::prelude::*;

/// Whether the words spell a fact of a key. The sequence count isn't looked at, and no row spells an
/// entry of the label `Text`.
#[must_use]
// Inlined: most rows are left after the first test, and a call costs more than that.
#[inline(always)]
pub fn tells_of(words: &[u64], key: Key<'_>) -> bool
    ensures { IsTrue result ↔ TellsOf words.now (key_shown key.entry) }
{
    words.len() == ROW_WORDS && tells_by_first(words, key)
}

/// Whether a row with these first words, and zeros past them, spells a fact of a key. Of a short text few
/// words are looked at.
#[must_use]
// Inlined, as is `tells_of`.
#[inline(always)]
pub fn tells_by_first(words: &[u64], key: Key<'_>) -> bool
    requires size { (TEXT_START ≤ length words.now) × (length words.now ≤ ROW_WORDS) }
    ensures { IsTrue result ↔ TellsOf (widened words.now) (key_shown key.entry) }
{
    // Most rows of a bucket are of another directory: one word tells, and no text is looked at.
    if number(words) != key.number {
        return false;
    }
    match key.label {
        Label::Text => is_text(words),
        Label::Name(_) | Label::DotDot => is_entry_of(words, key),
    }
}

/// The text that the words say a link has, or `None` if they spell no link's text. The sequence
/// count isn't looked at.
#[must_use]
pub fn text_of(words: &[u64]) -> Option<RowText>
    ensures spelled { IfSome result (λ text.
        Spells words.now (Some (Reads (slice_index words.now 2) text))) }
    ensures any { TellsText words.now result }
{
    if words.len() == ROW_WORDS && is_text(words) {
        Some(spelled_text(words))
    } else {
        None
    }
}

/// Whether a row with these first words spells the text of a link.
// Inlined, as are the functions below, for the sake of `tells_of`.
#[inline(always)]
fn is_text(words: &[u64]) -> bool
    requires size { (TEXT_START ≤ length words.now) × (length words.now ≤ ROW_WORDS) }
    ensures { IsTrue result ↔ SpellsText (widened words.now) }
{
    let len = words[1] / LENGTH_UNIT;
    if words[1] % TAGS != 2 || len == 0 || len > ROW_TEXT as u64 || words[2] == 0 || words[3] != 0 {
        return false;
    }
    // No component of so short a text is too long, and so only a zero byte is looked for.
    no_piece_is_longer();
    ends_at(words, len)
}

/// Whether the bytes for a text are this many, without a zero byte, and zeros after them.
#[inline(always)]
fn ends_at(words: &[u64], len: u64) -> bool
    requires size { (TEXT_START ≤ length words.now) × (length words.now ≤ ROW_WORDS) }
    requires fits { len ≤ ROW_TEXT }
    ensures { IsTrue result ↔ EndsAt words.now len }
{
    // Past the words there are zeros, which no text has.
    if len > 8 * (words.len() - TEXT_START) as u64 {
        return false;
    }
    'text: for i in TEXT_START..words.len() {
        let bytes = u8x8::from_array(words[i].to_le_bytes());
        let before = 8 * (i - TEXT_START) as u64;
        if !has_bytes(bytes, len.saturating_sub(before).min(8)) {
            return false;
        }
    }
    true
}

/// Whether this many of a word's first bytes aren't zero, and the others are. Then the bits of the zero
/// bytes are those from that many on.
#[inline(always)]
fn has_bytes(bytes: u8x8, len: u64) -> bool
    requires fits { len ≤ 8 }
    ensures { IsTrue result ↔ HasBytes bytes len }
{
    let zeros = bytes.simd_eq(u8x8::splat(0)).to_bitmask();
    zeros == (1 << 8) - (1 << len)
}

/// Whether a row with these first words spells an entry of a key, wherever it leads.
// Inlined (measured): a call has fewer instructions, but the words would go through memory, and the
// copy of them that is kept would wait for it.
#[inline(always)]
fn is_entry_of(words: &[u64], key: Key<'_>) -> bool
    requires size { (TEXT_START ≤ length words.now) × (length words.now ≤ ROW_WORDS) }
    ensures spelled { result ≡ true → SpellsEntry (widened words.now) (key_shown key.entry) }
    ensures none { result ≡ false → SpellsNoEntry (widened words.now) (key_shown key.entry) }
{
    let (kind, value) = (kind(words), value(words));
    if !is_target(kind, value) || !has_room(key, kind) {
        return false;
    }
    is_spelled(words, 1, kind, key.number, value, key.label.bytes())
}

/// Whether the words after the sequence count are those of a row with these fields.
#[inline(always)]
fn is_spelled(words: &[u64], tag: u64, kind: u64, number: u64, value: u64, text: &[u8]) -> bool
    requires size { (TEXT_START ≤ length words.now) × (length words.now ≤ ROW_WORDS) }
    requires tag { tag ≤ 2 }
    requires kind { kind ≤ 3 }
    requires room { length text.now ≤ ROW_TEXT }
    ensures bytes { AreBytes text.now }
    ensures is { IsTrue result ↔ IsSpelled words.now (fields tag kind number value text.now) }
{
    let head = head_of(tag, kind, text);
    if words[1] != head || words[2] != number || words[3] != value {
        return false;
    }
    let end = TEXT_START + text.len().div_ceil(8);
    'text: for i in TEXT_START..end {
        if word(words, i) != text_word(text, i - TEXT_START) {
            return false;
        }
    }
    are_zero(words, end)
}

/// Whether all words from one on are zero, as those past a text are. It looks at each, so that several are
/// looked at at a time.
#[inline(always)]
fn are_zero(words: &[u64], from: usize) -> bool
    ensures { IsTrue result ↔ ((i : ℕ) → from ≤ i → i < length words.now → slice_index words.now i ≡ 0) }
{
    let mut any = 0;
    for i in from..words.len() {
        any |= words[i];
    }
    any == 0
}

/// Whether an entry can have this kind and this number: one that leads nowhere has no number.
#[inline(always)]
pub(crate) fn is_target(kind: u64, value: u64) -> bool
    ensures some { result ≡ true → let t = target_by kind value in
        (kind_code t ≡ kind) × (target_number t ≡ value) × (is_numbered t ≡ true) }
    ensures all { (target : Option Target) → kind ≡ kind_code target → value ≡ target_number target
        → is_numbered target ≡ true → result ≡ true }
{
    kind <= 3 && (kind == 0) == (value == 0)
}

/// Whether an entry that leads to something of a kind can stand in a row.
#[inline(always)]
pub(crate) fn has_room(key: Key<'_>, kind: u64) -> bool
    ensures spelling { (target : Option Target) → kind ≡ kind_code target →
        is_numbered target ≡ true → result ≡ has_spelling (entry_of (key_shown key.entry) target) }
    ensures room { result ≡ true → length (label_bytes (key_shown key.entry).label) ≤ ROW_TEXT }
{
    match key.label {
        Label::Name(name) => key.number != 0 && name.bytes().len() <= ROW_TEXT,
        Label::DotDot => key.number != 0 && kind <= 1,
        Label::Text => false,
    }
}
