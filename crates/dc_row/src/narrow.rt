//! The first words of a row, which are all that has to be kept of one: past a row's text its words are
//! zero.

ghost use Rattle.std.specs.Prelude.{◌≡◌, ◌≤◌, length};
ghost use Rattle.dc_row.specs.Narrow.{told_words, widened};
ghost use Rattle.dc_names.specs.declared.limits.TheConstants.{ROW_WORDS};
ghost use Rattle.dc_row.specs.declared.layout.TheConstants.{TEXT_START};

use crate::{EMPTY_ROW, ROW_WORDS, TEXT_START, length};

/// How many of a row's words aren't zero by their place: those before its text, and those of the text.
#[must_use]
// Inlined: the walk that asks has read the length.
#[inline(always)]
pub fn told_words(words: &[u64]) -> usize
    ensures told { result ≡ told_words words.now }
    ensures few { (TEXT_START ≤ result) × (result ≤ ROW_WORDS) }
{
    (TEXT_START + (length(words) as usize).div_ceil(8)).min(ROW_WORDS)
}

/// A row by its first words, with zeros past them.
#[must_use]
pub fn widened(words: &[u64]) -> [u64; ROW_WORDS]
    requires { length words.now ≤ ROW_WORDS }
    ensures { result ≡ widened words.now }
{
    let mut row = EMPTY_ROW;
    row[..words.len()].copy_from_slice(words);
    row
}
