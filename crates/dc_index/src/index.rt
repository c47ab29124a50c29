//! The index: for each row of the cache its key, and for each key its row.

ghost use Rattle.std.specs.Prelude.{◌≡◌, ◌<◌, ◌≤◌, ◌*◌, ◌/◌, ◌%◌, ◌≢◌, ℕ, OnOk, OnErr, IfOk, IfSome, length, replicate, slice_set, map};
ghost use Rattle.dc_names.specs.declared.limits.TheConstants.{MOST_TABLE_BUCKETS};
ghost use Rattle.dc_index.specs.Hashed.{key_in};
ghost use Rattle.dc_plain.specs.KeysShown.{key_shown};
ghost use Rattle.dc_index.specs.Slots.{slot_of, has_key, most_text, cleared, bucket_in, IsIndex, IsRowOf};
ghost use Rattle.dc_index.specs.Slots.Slot.{Free as IsFree, Retired as IsRetired, Holds};
ghost use Rattle.dc_index.specs.OwnKeys.{slot_shown};
ghost use Rattle.dc_index.specs.Choices.{first_free, slots_in, choice, AgreeIn, MayTake};

use crate::hashed::HashedKey;
use crate::slot::{OwnKey, Slot, free_slots, place_of_free, place_of_key};
use dc_names::{BUCKET_ROWS, NoMemory};
use dc_plain::Key;
use dc_shrink::Shrinker;
use std::alloc::Global;
use std::marker::Model;

/// For each row the key that it has, if any. A bucket has `BUCKET_ROWS` rows, and its keys stand in these.
#[derive(Drop)]
pub struct Index {
    slots: Vec<Slot>,
}

impl Model for Index {
    ghost use Rattle.std.specs.Prelude.{List, map};
    ghost use Rattle.dc_index.specs.Slots.{Slot as SpecSlot, IsIndex};
    ghost use Rattle.dc_index.specs.OwnKeys.{slot_shown};

    ghost Value = { List SpecSlot };

    ghost view = { λ i. map slot_shown i.slots.items };

    ghost invariant = { λ i. IsIndex (map slot_shown i.slots.items) };
}

/// The bucket of a key by its hash. The number of buckets is mostly a power of two, and then nothing is
/// divided.
#[must_use]
// Inlined: a few instructions on the path of each look-up.
#[inline(always)]
pub fn bucket_at(hash: u64, buckets: u64) -> u64
    requires { 0 < buckets }
    ensures { result ≡ hash % buckets }
{
    if buckets.is_power_of_two() {
        hash & (buckets - 1)
    } else {
        hash % buckets
    }
}

impl Index {
    /// No row has a key. There are 1 to `MOST_TABLE_BUCKETS` buckets.
    pub fn new(alloc: Global, buckets: u64) -> Result<Index, NoMemory>
        requires { (0 < buckets) × (buckets ≤ MOST_TABLE_BUCKETS) }
        ensures new { IfOk result (λ index. index ≡ replicate (BUCKET_ROWS * buckets) IsFree) }
        ensures free { IfOk result (λ index. (row : ℕ) → slot_of index row ≡ IsFree) }
    {
        let slots = free_slots(alloc, BUCKET_ROWS * buckets)?;
        Ok(Index { slots })
    }

    /// The bucket of a key.
    fn bucket(&self, key: &HashedKey<'_>) -> u64
        ensures bucket { result ≡ bucket_in self.now (key_in key.now) }
        ensures within { result < length self.now / BUCKET_ROWS }
    {
        key.bucket(self.slots.len() as u64 / BUCKET_ROWS)
    }

    /// The slots of a bucket.
    fn slots_in(&self, bucket: u64) -> &[Slot]
        requires { bucket < length self.now / BUCKET_ROWS }
        ensures slots { map slot_shown result.now ≡ slots_in self.now bucket }
        ensures valid { IsIndex self.now }
    {
        let slots = self.slots.as_slice();
        let first = (BUCKET_ROWS * bucket) as usize;
        &slots[first..first + BUCKET_ROWS as usize]
    }

    /// The row that has a key, which is hashed.
    #[must_use]
    pub fn row_of(&self, key: &Key<'_>) -> Option<u64>
        ensures row { IsRowOf self.now (key_shown key.now) result }
        ensures valid { IsIndex self.now }
    {
        self.row_of_hashed(&HashedKey::new(*key))
    }

    /// The row that has a key, for a caller that has its hash.
    #[must_use]
    pub fn row_of_hashed(&self, key: &HashedKey<'_>) -> Option<u64>
        ensures row { IsRowOf self.now (key_in key.now) result }
        ensures valid { IsIndex self.now }
    {
        let bucket = self.bucket(key);
        let place = place_of_key(self.slots_in(bucket), &key.key)?;
        Some(BUCKET_ROWS * bucket + place as u64)
    }

    /// The free row of a bucket with the lowest number.
    fn first_free(&self, bucket: u64) -> Option<u64>
        requires { bucket < length self.now / BUCKET_ROWS }
        ensures row { result ≡ first_free self.now bucket }
        ensures valid { IsIndex self.now }
    {
        let place = place_of_free(self.slots_in(bucket))?;
        Some(BUCKET_ROWS * bucket + place as u64)
    }

    /// Whether a row has a key.
    #[must_use]
    pub fn has_key(&self, row: u64) -> bool
        requires { row < length self.now }
        ensures { result ≡ has_key (slot_of self.now row) }
    {
        self.slots[row as usize].has_key()
    }

    /// How many bytes the text of a row has at most, by its key: those of a name or of dot-dot, `NAME_MAX`
    /// for a link's text, which the index doesn't know, and none if the row has no key.
    #[must_use]
    pub fn most_text(&self, row: u64) -> usize
        requires { row < length self.now }
        ensures { result ≡ most_text (slot_of self.now row) }
    {
        self.slots[row as usize].most_text()
    }

    /// The row for a key that has none: the free row of its bucket with the lowest number, or else
    /// its bucket's least recently used unpinned row, or `None`.
    #[must_use]
    pub fn choose(&self, shrinker: &Shrinker, key: &HashedKey<'_>) -> Option<u64>
        requires { AgreeIn (bucket_in self.now (key_in key.now)) self.now shrinker.now }
        ensures choice { result ≡ choice self.now shrinker.now (key_in key.now) }
        ensures safe { IfSome result (MayTake self.now shrinker.now (key_in key.now)) }
        ensures within { IfSome result (λ row. row < length self.now) }
    {
        let bucket = self.bucket(key);
        self.first_free(bucket).or(shrinker.victim_of(bucket))
    }

    /// Gives a key without a row a row of its bucket, which loses the key that it had.
    pub fn set(&mut self, alloc: Global, row: u64, key: &Key<'_>) -> Result<(), NoMemory>
        requires home { row / BUCKET_ROWS ≡ bucket_in self.old (key_shown key.now) }
        requires unretired { slot_of self.old row ≢ IsRetired }
        requires absent { (other : ℕ) → slot_of self.old other ≢ Holds (key_shown key.now) }
        ensures set { OnOk result (self.new ≡ slice_set self.old row (Holds (key_shown key.now))) }
        ensures err { OnErr result (self.new ≡ self.old) }
    {
        let own = OwnKey::of(alloc, key)?;
        self.slots[row as usize] = Slot::Held(own);
        Ok(())
    }

    /// Takes from a row the key that it has, if any: then the row is free. A retired row stays so.
    pub fn clear(&mut self, row: u64)
        requires { row < length self.old }
        ensures { self.new ≡ slice_set self.old row (cleared (slot_of self.old row)) }
    {
        let slot = &mut self.slots[row as usize];
        slot.clear();
    }

    /// Takes from a row the key that it has, if any. The row never gets another.
    pub fn retire(&mut self, row: u64)
        requires { row < length self.old }
        ensures { self.new ≡ slice_set self.old row IsRetired }
    {
        self.slots[row as usize] = Slot::Retired;
    }
}
