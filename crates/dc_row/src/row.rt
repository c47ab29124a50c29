//! A row by value, as it is spelled or was read.

use crate::RowText;
use dc_names::Kind;

/// The entry of a directory that a row tells of.
#[derive(Debug, Drop, PartialEq, Eq)]
pub enum RowLabel {
    /// The entry with this name.
    Name(RowText),
    /// The entry `..`.
    DotDot,
}

/// What a row of the cache tells.
#[derive(Debug, Drop, PartialEq, Eq)]
pub enum Row {
    /// Nothing.
    Empty,
    /// Where an entry of a directory leads, or that there is no such entry.
    Entry(u64, RowLabel, Option<(u64, Kind)>),
    /// The text of a symbolic link.
    Link(u64, RowText),
}
