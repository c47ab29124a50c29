//! The slab keys of inodes, found by the inodes' numbers.

ghost use Rattle.std.specs.Prelude.{◌≡◌, ◌+◌, [], length, Some, None, OnOk, OnErr, OnSome, IfNone};
ghost use Rattle.std.specs.List.{slice_set};
ghost use Rattle.std.specs.List.Sorted.{IsStrictlySortedBy};
ghost use Rattle.std.specs.Map.{keys_of};
ghost use Rattle.std.specs.Ordering.{nat_cmp};
ghost use Rattle.dc_store.specs.Slots.{key_of, place_of, HasInstead};

use dc_names::NoMemory;
use std::alloc::Global;
use std::collections::BTreeMap;
use std::marker::Model;

/// How many recent numbers are noted.
const PLACES: u64 = 64;

/// The slab key of each number, seen as a list in the order of the numbers. They stand in an ordered
/// map. Those of the numbers that were added or written last are noted beside it too, each in the place
/// of its number modulo how many places there are, which is asked before the map: a note is one of the
/// map's pairs, so one that stayed after its number went would lead to a slot that is another's by then.
#[derive(Drop)]
pub struct SlabKeys {
    all: BTreeMap<u64, usize>,
    /// No places at all until there is room.
    recent: Vec<Option<(u64, usize)>>,
}

impl Model for SlabKeys {
    ghost use Rattle.std.specs.Prelude.{ℕ, List};

    ghost Value = { List (ℕ × ℕ) };

    ghost use Rattle.dc_store.specs.Slots.{AreNoted};

    ghost view = { λ s. s.all.entries };

    ghost invariant = { λ s. AreNoted s.recent.items s.all.entries };
}

impl SlabKeys {
    /// None yet, and no room for recent ones.
    pub fn new(alloc: Global) -> SlabKeys
        ensures { result ≡ [] }
    {
        SlabKeys {
            all: BTreeMap::new(alloc),
            recent: Vec::new(alloc),
        }
    }

    /// Makes room for recent ones, of which none is noted yet.
    pub fn make_room(&mut self, alloc: Global) -> Result<(), NoMemory>
        ensures { self.new ≡ self.old }
    {
        self.recent = vec![in alloc; None; PLACES as usize]?;
        Ok(())
    }

    /// How many there are.
    pub fn len(&self) -> u64
        ensures { result ≡ length self.now }
    {
        self.all.len() as u64
    }

    pub fn get(&self, number: u64) -> Option<usize>
        ensures value { result ≡ key_of self.now number }
    {
        match self.recent.get((number % PLACES) as usize) {
            Some(Some((noted, key))) if *noted == number => Some(*key),
            _ => self.all.get(&number).copied(),
        }
    }

    /// The key of a number whose inode is to be written, which is noted.
    pub fn get_noted(&mut self, number: u64) -> Option<usize>
        ensures value { result ≡ key_of self.old number }
        ensures same { self.new ≡ self.old }
    {
        let key = self.get(number)?;
        note(&mut self.recent, number, Some((number, key)));
        Some(key)
    }

    /// Adds the key of a number that has none, and notes it.
    pub fn insert(&mut self, number: u64, key: usize) -> Result<(), NoMemory>
        requires { key_of self.old number ≡ None }
        ensures ok { OnOk result (HasInstead number (Some key) self.old self.new) }
        ensures longer { OnOk result (length self.new ≡ length self.old + 1) }
        ensures err { OnErr result (self.new ≡ self.old) }
        ensures ordered { IsStrictlySortedBy nat_cmp (keys_of self.new) }
    {
        let Ok(_) = self.all.insert(number, key) else {
            return Err(NoMemory);
        };
        note(&mut self.recent, number, Some((number, key)));
        Ok(())
    }

    /// Takes the key of a number out, and its note.
    pub fn remove(&mut self, number: u64) -> Option<usize>
        ensures value { result ≡ key_of self.old number }
        ensures rest { HasInstead number None self.old self.new }
        ensures shorter { OnSome result (length self.new + 1 ≡ length self.old) }
        ensures same { IfNone result (self.new ≡ self.old) }
        ensures ordered { IsStrictlySortedBy nat_cmp (keys_of self.new) }
    {
        note(&mut self.recent, number, None);
        self.all.remove(&number)
    }
}

/// Writes what is noted in the place of a number, if there is room.
fn note(recent: &mut Vec<Option<(u64, usize)>>, number: u64, noted: Option<(u64, usize)>)
    ensures { recent.new.items ≡ slice_set recent.old.items (place_of number) noted }
{
    if let Some(place) = recent.get_mut((number % PLACES) as usize) {
        *place = noted;
    }
}
