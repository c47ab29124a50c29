//! A row that is compared with a key while it is read: its head, its number and its value, and the words
//! of a short text, which need not be stored first.

ghost use Rattle.std.specs.Prelude.{◌≡◌, ◌≤◌, ◌<◌, ℕ, length, slice_index};
ghost use Rattle.dc_plain.specs.KeysShown.{key_shown};
ghost use Rattle.dc_row.specs.Short.{TellsByHead};
ghost use Rattle.dc_row.specs.Spelling.{text_word};
ghost use Rattle.dc_row.specs.declared.short.TheConstants.{SHORT_TEXT, SHORT_WORDS};

use crate::entry::{has_room, is_target};
use crate::writing::{head_of, text_word};
use crate::{KIND_UNIT, TAGS};
use dc_plain::Key;

/// How many words a short text takes in a row.
pub const SHORT_WORDS: usize = 4;

/// The most bytes of a short text.
pub const SHORT_TEXT: usize = 8 * SHORT_WORDS;

/// The words that spell a short text in a row, with zeros past its end.
#[must_use]
// Inlined: the words stay in registers, and a walk compares them with each row that it reads.
#[inline(always)]
pub fn short_words(text: &[u8]) -> [u64; SHORT_WORDS]
    requires { length text.now ≤ SHORT_TEXT }
    ensures words { (i : ℕ) → i < SHORT_WORDS → slice_index result i ≡ text_word text.now i }
    ensures past { (i : ℕ) → SHORT_WORDS ≤ i → text_word text.now i ≡ 0 }
{
    [
        text_word(text, 0),
        text_word(text, 1),
        text_word(text, 2),
        text_word(text, 3),
    ]
}

/// Whether a row that has a key's text spells an entry of the key, by its head, its number and its value.
#[must_use]
// Inlined, as is `tells_of`: most rows are left after the first test.
#[inline(always)]
pub fn leads(head: u64, number: u64, value: u64, key: Key<'_>) -> bool
    ensures { TellsByHead head number value (key_shown key.entry) result }
{
    let kind = head / KIND_UNIT % TAGS;
    if number != key.number || !is_target(kind, value) || !has_room(key, kind) {
        return false;
    }
    head == head_of(1, kind, key.label.bytes())
}
