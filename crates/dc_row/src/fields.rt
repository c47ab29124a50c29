//! The fields of a row's words, whatever these spell.

ghost use Rattle.std.specs.Prelude.{◌≡◌, ◌/◌, ◌%◌, slice_index};

use crate::{KIND_UNIT, LENGTH_UNIT, LENGTHS, TAGS};

/// What a row's head has in its lowest byte: 0 for no fact, 1 for an entry, 2 for a link's text.
#[must_use]
pub fn tag(words: &[u64]) -> u64
    ensures { result ≡ slice_index words.now 1 % TAGS }
{
    word(words, 1) % TAGS
}

/// How many bytes the row's text has.
#[must_use]
pub fn length(words: &[u64]) -> u64
    ensures { result ≡ slice_index words.now 1 / LENGTH_UNIT % LENGTHS }
{
    word(words, 1) / LENGTH_UNIT % LENGTHS
}

/// What an entry leads to: 0 nothing, 1 a directory, 2 a file, 3 a link.
#[must_use]
pub fn kind(words: &[u64]) -> u64
    ensures { result ≡ slice_index words.now 1 / KIND_UNIT % TAGS }
{
    word(words, 1) / KIND_UNIT % TAGS
}

/// The number of the directory or of the link.
#[must_use]
pub fn number(words: &[u64]) -> u64
    ensures { result ≡ slice_index words.now 2 }
{
    word(words, 2)
}

/// The number of the target, or 0.
#[must_use]
pub fn value(words: &[u64]) -> u64
    ensures { result ≡ slice_index words.now 3 }
{
    word(words, 3)
}

/// A word of the row, or 0 past its end.
#[inline(always)]
pub(crate) fn word(words: &[u64], at: usize) -> u64
    ensures { result ≡ slice_index words.now at }
{
    words.get(at).copied().unwrap_or(0)
}
