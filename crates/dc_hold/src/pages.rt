//! Entries of a directory, written into a caller's array.

ghost use Rattle.std.specs.Prelude.{◌≡◌, length, min, option_map};
ghost use Rattle.dc_cache.specs.Pages.{asked_for};
ghost use Rattle.dc_hold.specs.Pages.{entries_over, entry_written, page_asked, page_over, tells_page};

use crate::buffer::put_text;
use crate::status::Status;
use crate::told::{Told, busy, kind_number, nothing, told_stamped};
use dc_cache::{Entries, Entry, Name, NoMemory, Stamped};
use dc_names::NAME_MAX;

/// How many bytes a name takes in C, with a zero behind it.
pub const NAME_ROOM: usize = 256;

/// An entry of a directory, as C sees it.
#[repr(C)]
#[derive(Clone, Copy)]
pub struct DirEntry {
    /// The number that its name leads to.
    pub number: u64,
    /// The kind of that inode, as in `Found`.
    pub kind: u32,
    /// How many bytes its name has.
    pub length: u32,
    /// Its name, with zeros behind it.
    pub name: [u8; NAME_ROOM],
}

/// The page that a program in C asks for: of the entries behind a name, or of all if that has no bytes.
/// `None` if it has room for no entry, or those bytes are no name.
#[must_use]
pub fn asked_page<'a>(
    base: u64,
    path: &'a [u8],
    after: &'a [u8],
    most: usize,
) -> Option<Entries<'a>>
    ensures { option_map asked_for result ≡ page_asked base path.now after.now most }
{
    if most == 0 {
        return None;
    }
    let after = if after.is_empty() {
        None
    } else {
        Some(Name::new(after)?)
    };
    Some(Entries {
        base,
        path,
        after,
        most,
    })
}

/// An entry, as C sees it.
fn dir_entry(entry: &Entry) -> DirEntry
    ensures { result ≡ entry_written entry.now }
{
    let bytes = entry.name.as_slice();
    // No name has more bytes, and one that had would leave no room for a zero.
    let length = bytes.len().min(NAME_MAX);
    let mut name = [0; NAME_ROOM];
    put_text(&mut name, &bytes[..length]);
    DirEntry {
        number: entry.number,
        kind: kind_number(entry.kind),
        length: length as u32,
        name,
    }
}

/// Writes the first entries, as many as there is room for, and answers how many.
fn put_entries(slots: &mut [DirEntry], entries: &[Entry]) -> usize
    ensures written { slots.new ≡ entries_over slots.old entries.now }
    ensures many { result ≡ min (length slots.old) (length entries.now) }
{
    let many = slots.len().min(entries.len());
    for at in 0..many {
        slots[at] = dir_entry(&entries[at]);
    }
    many
}

/// What a try to tell a page says. Its entries are written, as many as there is room for.
#[must_use]
pub fn told_page(
    slots: &mut [DirEntry],
    tried: &Option<Result<(Stamped, Vec<Entry>), NoMemory>>,
) -> Told
    ensures told { result ≡ tells_page (length slots.old) tried.now }
    ensures written { slots.new ≡ page_over slots.old tried.now }
{
    match tried {
        Some(Ok((stamped, entries))) => {
            let mut told = told_stamped(stamped);
            told.found.count = put_entries(slots, entries.as_slice()) as u64;
            told
        }
        Some(Err(NoMemory)) => nothing(Status::NoMemory),
        None => busy(),
    }
}
