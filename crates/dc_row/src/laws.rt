//! Laws of the definitions, as contracts of functions that do nothing.

ghost use Rattle.std.specs.Prelude.{◌≡◌, None, Option};
ghost use Rattle.dc_plain.specs.Facts.{Fact};
ghost use Rattle.dc_row.specs.Decoding.{SpelledIsRead};
ghost use Rattle.dc_row.specs.Laws.{CountsTellNothing, HasOneSpelling};
ghost use Rattle.dc_row.specs.Narrow.{RowsEndInZeros};
ghost use Rattle.dc_row.specs.Short.{RowsHaveTheirText};
ghost use Rattle.dc_row.specs.Spelling.{Spells};

use crate::{EMPTY_ROW, decode};

/// The words that spell a row, after the sequence count, are always the same.
pub fn rows_have_one_spelling()
    ensures { HasOneSpelling }
{}

/// Words spell one row at most.
pub fn words_spell_one_row(words: &[u64])
    ensures { (a b : Option Fact) → Spells words.now a → Spells words.now b → a ≡ b }
{
    let _ = decode(words);
}

/// Words that spell a fact have just the fact that can be read from them, field by field.
pub fn words_have_the_fact_they_spell()
    ensures { SpelledIsRead }
{}

/// Words spell the same with any sequence count.
pub fn counts_tell_nothing()
    ensures { CountsTellNothing }
{}

/// The words of a row past its text are zero.
pub fn rows_end_in_zeros()
    ensures { RowsEndInZeros }
{}

/// A row that spells an entry of a key has the key's text.
pub fn rows_have_their_text()
    ensures { RowsHaveTheirText }
{}

/// The words of an empty row spell no fact.
pub fn empty_row_spells_nothing()
    ensures { Spells EMPTY_ROW None }
{}
