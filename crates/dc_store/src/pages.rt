//! The entries of a directory, some at a time.

ghost use Rattle.std.specs.Prelude.{◌≡◌, IfOk, take};
ghost use Rattle.dc_store.specs.Pages.{leads_shown};

use crate::name_bytes::NameBytes;
use dc_names::{Kind, NoMemory};
use std::alloc::Global;
use std::collections::btree_map::Range;

/// An entry of a directory.
#[derive(Drop)]
pub struct Entry {
    /// The bytes of its name.
    pub name: Vec<u8>,
    /// The number that the name leads to.
    pub number: u64,
    /// The kind of that inode.
    pub kind: Kind,
}

/// A name of a directory with the number that it leads to.
#[derive(Drop)]
pub struct Led {
    pub name: Vec<u8>,
    pub number: u64,
}

/// The first of some names, at most this many, each with the number that it leads to.
pub fn first_of(
    alloc: Global,
    names: Range<'_, NameBytes, u64>,
    most: usize,
) -> Result<Vec<Led>, NoMemory>
    ensures { IfOk result (λ page. leads_shown page ≡ take most names.entry) }
{
    let mut page = Vec::new(alloc);
    for (name, number) in names {
        if page.len() == most {
            return Ok(page);
        }
        page.push(Led {
            name: name.as_slice().to_vec(alloc)?,
            number: *number,
        })?;
    }
    Ok(page)
}
