//! The bytes that an entry is kept under.

ghost use Rattle.std.specs.Prelude.{◌≡◌, ℕ, ◌+◌, ◌≤◌, List, ◌++◌, take, drop, length, is_some, option_map, IfOk};
ghost use Rattle.dc_store.specs.Keys.{key_of, name_held};
ghost use Rattle.dc_plain.specs.Spots.{spot_at};
ghost use Rattle.dc_store.specs.declared.entry_bytes.TheConstants.{MOST_KEY};

use dc_names::{NAME_MAX, Name, NoMemory};
use std::alloc::Global;
use std::marker::Model;

/// The most of these bytes.
const MOST_KEY: usize = 8 + NAME_MAX;

/// The bytes that an entry is kept under. Making them takes no memory.
#[derive(Drop)]
pub struct EntryBytes {
    bytes: [u8; MOST_KEY],
    len: usize,
}

impl Model for EntryBytes {
    ghost Value = { List ℕ };

    ghost view = { λ key. take key.len key.bytes };

    ghost invariant = { λ key. key.len ≤ MOST_KEY };
}

impl EntryBytes {
    /// The directory's number in 8 bytes, the highest first, and the name.
    pub fn new(dir: u64, name: Name<'_>) -> EntryBytes
        ensures { result ≡ key_of (spot_at dir name.entry.bytes.now) }
    {
        let name = name.bytes();
        let mut bytes = [0; MOST_KEY];
        put_at(&mut bytes, 0, &dir.to_be_bytes());
        put_at(&mut bytes, 8, name);
        EntryBytes {
            bytes,
            len: 8 + name.len(),
        }
    }

    pub fn as_slice(&self) -> &[u8]
        ensures { result.now ≡ self.now }
    {
        &self.bytes[..self.len]
    }

    pub fn to_vec(&self, alloc: Global) -> Result<Vec<u8>, NoMemory>
        ensures { IfOk result (λ bytes. bytes.items ≡ self.now) }
    {
        Ok(self.as_slice().to_vec(alloc)?)
    }
}

/// Writes a part over the bytes from a place on.
fn put_at(bytes: &mut [u8], start: usize, part: &[u8])
    requires { start + length part.now ≤ length bytes.old }
    ensures { bytes.new
        ≡ take start bytes.old ++ part.now ++ drop (start + length part.now) bytes.old }
{
    bytes[start..start + part.len()].copy_from_slice(part);
}

/// The name of a key, if it is for an entry in a directory.
pub fn name_in(key: &[u8], dir: u64) -> Option<&[u8]>
    ensures { option_map (λ name. name.now) result ≡ name_held dir key.now }
{
    key.strip_prefix(&dir.to_be_bytes())
}

/// Whether a key is for an entry in a directory.
pub fn stands_in(key: &[u8], dir: u64) -> bool
    ensures { result ≡ is_some (name_held dir key.now) }
{
    name_in(key, dir).is_some()
}
