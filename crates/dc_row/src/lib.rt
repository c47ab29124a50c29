//! Rows of the cache as words of 64 bits: what they spell, how a fact is spelled, and how it is sought
//! without being decoded. Nothing here takes memory. The file `layout` has the table of the words. The small
//! functions that a look-up calls for each row are inlined: a call would hand its words through memory.
#![tactic(auto)]

mod entry;
mod fields;
mod laws;
mod layout;
mod narrow;
mod reading;
mod row;
mod short;
mod text;
mod writing;

pub use dc_names::{ROW_TEXT, ROW_WORDS};
pub use entry::{tells_by_first, tells_of, text_of};
pub use fields::{kind, length, number, tag, value};
pub use laws::{
    counts_tell_nothing, empty_row_spells_nothing, rows_end_in_zeros, rows_have_one_spelling,
    rows_have_their_text, words_have_the_fact_they_spell, words_spell_one_row,
};
pub use layout::{KIND_UNIT, LENGTH_UNIT, LENGTHS, TAGS, TEXT_START};
pub use narrow::{told_words, widened};
pub use reading::{decode, leads_to, spelled_text, target, text_in};
pub use row::{Row, RowLabel};
pub use short::{SHORT_TEXT, SHORT_WORDS, leads, short_words};
pub use text::RowText;
pub use writing::{encode, encode_entry};

/// How many bytes the words of the text have.
pub(crate) const ROW_ROOM: usize = 8 * (ROW_WORDS - TEXT_START);

/// The words of a row that tells nothing.
pub const EMPTY_ROW: [u64; ROW_WORDS] = [0; ROW_WORDS];
