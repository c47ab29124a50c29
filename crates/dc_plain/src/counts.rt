//! How many names an inode has, and which a directory has.

ghost use Rattle.std.specs.Prelude.{◌≡◌, ◌==◌, map, filter, length, IfOk};
ghost use Rattle.dc_names.specs.Bytes.{is_empty};
ghost use Rattle.dc_plain.specs.BytesShown.{names_by, names_shown};
ghost use Rattle.dc_plain.specs.Reads.{count_at};
ghost use Rattle.dc_plain.specs.Rows.{entries_in};
ghost use Rattle.dc_plain.specs.Plain.{entry_shown};
ghost use Rattle.dc_plain.specs.Trees.{how_many, names_in as names_within, names_of as names_of_inode};

use crate::rows::Entry;
use crate::{PlainTree, Target, is_directory};
use dc_names::NoMemory;
use std::alloc::Global;

/// How many entries lead to a number.
pub(crate) fn leading_to(entries: &[Entry], number: u64) -> usize
    ensures { result ≡ how_many (λ e. e.1 == number) (map entry_shown entries.now) }
{
    entries
        .iter()
        .filter(|entry| entry.target == number)
        .count()
}

/// How many entries stand in a directory.
fn standing_in(entries: &[Entry], dir: u64) -> usize
    ensures { result
        ≡ length (filter (λ e. e.0.dir == dir) (map entry_shown entries.now)) }
{
    entries.iter().filter(|entry| entry.dir == dir).count()
}

/// The names in a directory, by their bytes.
fn names_in(alloc: Global, entries: &[Entry], dir: u64) -> Result<Vec<Vec<u8>>, NoMemory>
    ensures { IfOk result (λ names. names_shown names ≡ names_by dir (entries_in entries.now)) }
{
    let mut names = Vec::new(alloc);
    for entry in entries {
        if entry.dir == dir {
            names.push(entry.name.to_vec(alloc)?)?;
        }
    }
    Ok(names)
}

impl PlainTree {
    /// How many names an inode has.
    pub(crate) fn names_of(&self, number: u64) -> u64
        ensures { result ≡ names_of_inode self.now.tree number }
    {
        leading_to(&self.entries, number) as u64
    }

    /// Whether a directory has no entry.
    pub(crate) fn is_empty(&self, dir: u64) -> bool
        ensures { result ≡ is_empty (names_within self.now.tree dir) }
    {
        standing_in(&self.entries, dir) == 0
    }

    /// How many names an inode has, or how many entries as a directory.
    pub(crate) fn count_at(&self, target: Target) -> u64
        ensures { result ≡ count_at self.now.tree target }
    {
        if is_directory(target) {
            standing_in(&self.entries, target.0) as u64
        } else {
            self.names_of(target.0)
        }
    }

    /// The names in a directory, by their bytes.
    pub(crate) fn names_in(&self, alloc: Global, dir: u64) -> Result<Vec<Vec<u8>>, NoMemory>
        ensures { IfOk result (λ names.
            map (λ name. name.items) names.items ≡ names_within self.now.tree dir) }
    {
        names_in(alloc, &self.entries, dir)
    }
}
