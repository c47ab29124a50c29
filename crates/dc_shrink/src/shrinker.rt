//! The rows in use: the list by last use and the pins.

ghost use Rattle.std.specs.Prelude.{◌≡◌, ◌↔◌, ◌<◌, ◌≤◌, [], Err, IfOk, OnOk, OnErr, filter, IsTrue, not, true, false};
ghost use Rattle.std.specs.FinMap as map;
ghost use Rattle.dc_names.specs.declared.limits.TheConstants.{MOST_COUNT};
ghost use Rattle.dc_shrink.specs.declared.fault.PinFault.TheVariants as fault;
ghost use Rattle.dc_shrink.specs.Listings.{listing, added, touched, with_pins, pinned_once, unpinned_once, dropped, is_in, is_used, pins_of, last_of, in_bucket, IsListing};
ghost use Rattle.dc_shrink.specs.Uses.{KeepsUse, SetsUse, UsesNone};

use crate::PinFault;
use crate::bucket::{Bucket, buckets_of, promote};
use dc_names::{MOST_COUNT, NoMemory};
use lru::LruCache;
use std::alloc::Global;
use std::collections::HashMap;
use std::marker::Model;
use std::num::NonZeroUsize;

/// The rows in use: the unpinned ones by last use, and the pins of the others.
///
/// A row of a pinned dentry can't be emptied. Rows count from 0, `BUCKET_ROWS` to a bucket.
#[derive(Drop)]
pub struct Shrinker {
    listed: LruCache<u64, ()>,
    pins: HashMap<u64, u64>,
    buckets: Vec<Bucket>,
}

impl Model for Shrinker {
    ghost use Rattle.std.specs.Map.{keys_of};
    ghost use Rattle.std.specs.FinMap as map;
    ghost use Rattle.dc_shrink.specs.Listings.{Listing, listing, listing_code};
    ghost use Rattle.dc_shrink.specs.Orders.{IsKept};

    ghost Value = { Listing };

    ghost coded = { listing_code };

    ghost view = { λ s.
        listing s.listed.cap (keys_of s.listed.entries) (map.from_entries s.pins.entries) };

    ghost invariant = { λ s.
        IsKept (listing s.listed.cap (keys_of s.listed.entries) (map.from_entries s.pins.entries))
        s.buckets.items };
}

impl Shrinker {
    /// Nothing is in use. The rows count from 0 to below `rows`, at least one.
    pub fn new(alloc: Global, rows: u64) -> Result<Shrinker, NoMemory>
        requires { 0 < rows }
        ensures new { IfOk result (λ s. s ≡ listing rows [] map.empty) }
        ensures unused { IfOk result UsesNone }
    {
        let buckets = buckets_of(alloc, rows)?;
        let most = NonZeroUsize::new(rows as usize).unwrap();
        Ok(Shrinker {
            listed: LruCache::new(alloc, most)?,
            pins: HashMap::new(alloc),
            buckets,
        })
    }

    /// Lists a row that is neither listed nor pinned, as the most recently used.
    pub fn add(&mut self, row: u64) -> Result<(), NoMemory>
        requires within { row < self.old.rows }
        requires unused { IsTrue (not (is_used self.old row)) }
        ensures first { OnOk result (self.new ≡ added self.old row) }
        ensures used { OnOk result (SetsUse row true self.old self.new) }
        ensures err { OnErr result (self.new ≡ self.old) }
    {
        self.listed.put(row, ())?;
        promote(&mut self.buckets, row);
        Ok(())
    }

    /// Lists the row that was chosen for a key as the most recently used, whatever it was: as `remove` and
    /// `add` after each other, but the list is searched once, and takes no memory if it has the row.
    ///
    /// `NoMemory` if it can't be listed: then it is out of use.
    pub fn renew(&mut self, chosen: u64) -> Result<(), NoMemory>
        requires { chosen < self.old.rows }
        ensures first { OnOk result (self.new ≡ added (dropped self.old chosen) chosen) }
        ensures used { OnOk result (SetsUse chosen true self.old self.new) }
        ensures err { OnErr result (self.new ≡ dropped self.old chosen) }
        ensures unused { SetsUse chosen false self.old (dropped self.old chosen) }
    {
        self.pins.remove(&chosen);
        let Ok(_) = self.listed.put(chosen, ()) else {
            return Err(NoMemory);
        };
        promote(&mut self.buckets, chosen);
        Ok(())
    }

    /// Makes a listed row the most recently used.
    ///
    /// No walk calls it: a walk without the lock can't, and one with the lock has pinned the row. So the row
    /// that was least recently used is the one that was filled or lost its last pin before all others.
    pub fn touch(&mut self, row: u64)
        requires { IsTrue (is_in self.old.listed row) }
        ensures touched { self.new ≡ touched self.old row }
        ensures same_use { KeepsUse self.old self.new }
    {
        self.listed.promote(&row);
        promote(&mut self.buckets, row);
    }

    /// Gives a row that is listed or pinned one more pin. A pinned row isn't in the list.
    pub fn pin(&mut self, row: u64) -> Result<(), PinFault>
        requires { IsTrue (is_used self.old row) }
        ensures pinned { OnOk result (self.new ≡ pinned_once self.old row) }
        ensures most { (result ≡ Err fault.Most) ↔ (pins_of self.old row ≡ MOST_COUNT) }
        ensures no_memory { result ≡ Err fault.NoMemory → pins_of self.old row ≡ 0 }
        ensures err { OnErr result (self.new ≡ self.old) }
        ensures same_use { KeepsUse self.old self.new }
    {
        let pins = self.pins(row);
        if pins == MOST_COUNT {
            return Err(PinFault::Most);
        }
        Ok(self.set_pins(row, pins + 1)?)
    }

    /// Takes a pin from a pinned row. With none left the row is listed, as the most recently used.
    ///
    /// `NoMemory` if it can't be listed: the pin is gone, and the row is no longer in use.
    pub fn unpin(&mut self, row: u64) -> Result<(), NoMemory>
        requires { 0 < pins_of self.old row }
        ensures unpinned { OnOk result (self.new ≡ unpinned_once self.old row) }
        ensures same_use { OnOk result (KeepsUse self.old self.new) }
        ensures last { OnErr result (pins_of self.old row ≡ 1) }
        ensures dropped { OnErr result (self.new ≡ dropped self.old row) }
        ensures unused { OnErr result (SetsUse row false self.old self.new) }
    {
        let pins = self.pins(row);
        if pins > 1 {
            return self.set_pins(row, pins - 1);
        }
        self.remove(row);
        self.add(row)
    }

    /// Makes a row in use have this many pins. `NoMemory` comes only if it had none.
    fn set_pins(&mut self, row: u64, pins: u64) -> Result<(), NoMemory>
        requires used { IsTrue (is_used self.old row) }
        requires limits { (1 ≤ pins) × (pins ≤ MOST_COUNT) }
        ensures set { OnOk result (self.new ≡ with_pins self.old row pins) }
        ensures err { OnErr result (self.new ≡ self.old) }
        ensures first { OnErr result (pins_of self.old row ≡ 0) }
        ensures same_use { KeepsUse self.old self.new }
    {
        self.pins.insert(row, pins)?;
        self.listed.pop(&row);
        Ok(())
    }

    /// How many pins a row has: 0 if it has none.
    #[must_use]
    pub fn pins(&self, row: u64) -> u64
        ensures pins { result ≡ pins_of self.now row }
        ensures valid { IsListing self.now }
    {
        self.pins.get(&row).copied().unwrap_or(0)
    }

    /// Takes a row out of use, with all its pins.
    pub fn remove(&mut self, row: u64)
        ensures dropped { self.new ≡ dropped self.old row }
        ensures unused { SetsUse row false self.old self.new }
    {
        self.listed.pop(&row);
        self.pins.remove(&row);
    }

    /// The unpinned row in use that was least recently used.
    #[must_use]
    pub fn victim(&self) -> Option<u64>
        ensures victim { result ≡ last_of self.now.listed }
        ensures valid { IsListing self.now }
    {
        self.listed.peek_lru().map(|(row, _)| *row)
    }

    /// The unpinned row in use that was least recently used, of the rows of a
    /// bucket.
    #[must_use]
    pub fn victim_of(&self, bucket: u64) -> Option<u64>
        ensures victim { result ≡ last_of (filter (in_bucket bucket) self.now.listed) }
        ensures valid { IsListing self.now }
    {
        self.buckets.get(bucket as usize)?.last_listed(&self.listed)
    }
}
