//! Entries in one ordered map, under their directories and names.

ghost use Rattle.std.specs.Prelude.{◌≡◌, ℕ, List, [], ◌==◌, ◌++◌, length, map, IsSome, IfOk, OnOk, OnErr};
ghost use Rattle.std.specs.FinMap.Entries.{put};
ghost use Rattle.std.specs.FinMap.Entries.{find as lookup};
ghost use Rattle.dc_plain.specs.Trees.{Spot, how_many, spot_cmp, without_spot};
ghost use Rattle.dc_plain.specs.BytesShown.{names_by, names_shown};
ghost use Rattle.dc_store.specs.Keys.{entry_shown, names_of_key, AreKept};
ghost use Rattle.dc_plain.specs.Spots.{spot_at};

use crate::entry_bytes::{EntryBytes, name_in, stands_in};
use dc_names::{Name, NoMemory};
use std::alloc::Global;
use std::collections::BTreeMap;
use std::marker::Model;

/// Entries under their keys, seen as a list by their directories and names, in order.
#[derive(Drop)]
pub struct Entries {
    by_key: BTreeMap<Vec<u8>, u64>,
}

impl Model for Entries {
    ghost Value = { List (Spot × ℕ) };

    ghost view = { λ es. map entry_shown es.by_key.entries };

    ghost invariant = { λ es. AreKept es.by_key.entries };
}

impl Entries {
    pub fn new(alloc: Global) -> Entries
        ensures { result ≡ [] }
    {
        Entries {
            by_key: BTreeMap::new(alloc),
        }
    }

    /// Where an entry leads.
    pub fn get(&self, dir: u64, name: Name<'_>) -> Option<u64>
        ensures { result ≡ lookup spot_cmp (spot_at dir name.entry.bytes.now) self.now }
    {
        let key = EntryBytes::new(dir, name);
        self.by_key.get(key.as_slice()).copied()
    }

    /// Puts an entry in, and answers where it led before.
    pub fn insert(
        &mut self,
        alloc: Global,
        dir: u64,
        name: Name<'_>,
        number: u64,
    ) -> Result<Option<u64>, NoMemory>
        ensures ok { OnOk result (self.new
            ≡ put spot_cmp (spot_at dir name.entry.bytes.now) number self.old) }
        ensures before { IfOk result (λ before. before
            ≡ lookup spot_cmp (spot_at dir name.entry.bytes.now) self.old) }
        ensures err { OnErr result (self.new ≡ self.old) }
    {
        let key = EntryBytes::new(dir, name).to_vec(alloc)?;
        Ok(self.by_key.insert(key, number)?)
    }

    /// Lets an entry that is there lead elsewhere. It takes no memory.
    pub fn redirect(&mut self, dir: u64, name: Name<'_>, number: u64)
        requires { IsSome (lookup spot_cmp (spot_at dir name.bytes.now) self.old) }
        ensures { self.new ≡ put spot_cmp (spot_at dir name.entry.bytes.now) number self.old }
    {
        let key = EntryBytes::new(dir, name);
        // The caller knows that the entry is there.
        let Some(target) = self.by_key.get_mut(key.as_slice()) else {
            unreachable!();
        };
        *target = number;
    }

    /// Takes an entry out, and answers where it led.
    pub fn remove(&mut self, dir: u64, name: Name<'_>) -> Option<u64>
        ensures rest { self.new ≡ without_spot (spot_at dir name.entry.bytes.now) self.old }
        ensures before { result ≡ lookup spot_cmp (spot_at dir name.entry.bytes.now) self.old }
    {
        let key = EntryBytes::new(dir, name);
        self.by_key.remove(key.as_slice())
    }

    /// How many entries lead to a number.
    pub fn names(&self, number: u64) -> u64
        ensures { result ≡ how_many (λ e. e.1 == number) self.now }
    {
        self.by_key
            .values()
            .filter(|target| **target == number)
            .count() as u64
    }

    /// How many entries stand in a directory.
    pub fn held(&self, dir: u64) -> u64
        ensures { result ≡ length (names_by dir self.now) }
    {
        self.by_key.keys().filter(|key| stands_in(key, dir)).count() as u64
    }

    /// The names in a directory, by their bytes.
    pub fn list(&self, alloc: Global, dir: u64) -> Result<Vec<Vec<u8>>, NoMemory>
        ensures { IfOk result (λ names. names_shown names ≡ names_by dir self.now) }
    {
        let mut names = Vec::new(alloc);
        for key in self.by_key.keys() {
            push_name(&mut names, alloc, key, dir)?;
        }
        Ok(names)
    }
}

/// Puts the name of a key at the end, if the key is for an entry in a directory.
fn push_name(names: &mut Vec<Vec<u8>>, alloc: Global, key: &[u8], dir: u64) -> Result<(), NoMemory>
    ensures { OnOk result
        (names_shown names.new ≡ names_shown names.old ++ names_of_key dir key.entry.now) }
{
    if let Some(name) = name_in(key, dir) {
        names.push(name.to_vec(alloc)?)?;
    }
    Ok(())
}
