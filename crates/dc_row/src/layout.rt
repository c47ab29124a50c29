//! The layout of a row: what each of its words has.
//!
//! | word | bits | what it has |
//! |---|---|---|
//! | 0 | all | the sequence count, odd while the row is being written; no fact is read from it |
//! | 1, the head | 0 to 7 | the tag: 0 for no fact, 1 for an entry, 2 for a link's text |
//! | | 8 to 23 | how many bytes the text has, at most `ROW_TEXT` |
//! | | 24 to 31 | what an entry leads to: 0 nothing, 1 a directory, 2 a file, 3 a link |
//! | | 32 to 63 | zero |
//! | 2 | all | the number of the directory or of the link |
//! | 3 | all | the number of the inode that the entry leads to, or 0 |
//! | the others | all | the text: a name, two dots, or a link's text; the first byte lowest, zeros after the last |
//!
//! An empty row has zeros in all words after its count. Each fact has one spelling: each bit of which the
//! table doesn't say more is zero.

/// The word with which the text begins.
pub const TEXT_START: usize = 4;

/// What one byte of text counts for in the head, above the tag.
pub const LENGTH_UNIT: u64 = 1 << 8;

/// What one counts for in the head's kind, above the tag and the length.
pub const KIND_UNIT: u64 = 1 << 24;

/// How many numbers the head has room for as a length.
pub const LENGTHS: u64 = KIND_UNIT / LENGTH_UNIT;

/// How many numbers the head has room for as a tag, and as a kind.
pub const TAGS: u64 = 1 << 8;
