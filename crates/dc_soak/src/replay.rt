//! The tree that changes make on a store of their own, in the order of their points, and whether two stores
//! hold one tree.

ghost use Rattle.dc_cache.specs.Passes.{IsChange};

use dc_cache::{SlabStore, Store};
use dc_check::Stamp;
use dc_names::{Name, NoMemory};
use dc_ops::{carry, plan};
use dc_plain::{Call, Reply, Sort};
use std::alloc::Global;

/// A tree, after this many changes, and of the changes with this point the one that alters it, once met.
#[derive(Drop)]
pub struct Replay<'a> {
    pub store: SlabStore,
    pub clock: u64,
    change: Option<&'a Stamp>,
}

/// Whether a call would alter a tree.
fn alters(store: &SlabStore, call: &Call<'_>, inodes: u64) -> bool {
    match call.sort() {
        Sort::Change => plan(store, call, inodes).is_ok(),
        Sort::Sought | Sort::Told => false,
    }
}

/// Makes a change on a tree, and says whether it altered it.
fn make(
    alloc: Global,
    store: &mut SlabStore,
    call: &Call<'_>,
    inodes: u64,
) -> Result<bool, NoMemory>
    requires { IsChange call.now }
{
    match plan(store, call, inodes) {
        Ok(plan) => {
            carry(alloc, store, plan)?;
            Ok(true)
        }
        Err(_) => Ok(false),
    }
}

/// Stamps by their points, without the calls that were refused.
fn by_point(alloc: Global, stamps: &[Stamp]) -> Result<Vec<&Stamp>, NoMemory> {
    let mut sorted: Vec<&Stamp> = Vec::new(alloc);
    for stamp in stamps {
        if !matches!(stamp.reply, Reply::Refused(_)) {
            sorted.push(stamp)?;
        }
    }
    sorted.sort_by_key(|stamp| stamp.at)?;
    Ok(sorted)
}

impl<'a> Replay<'a> {
    /// Makes the change that was met.
    fn settle(&mut self, alloc: Global, inodes: u64) -> Result<(), NoMemory> {
        let Some(change) = self.change else {
            return Ok(());
        };
        self.change = None;
        let call = change.call.as_call();
        if let Sort::Change = call.sort()
            && make(alloc, &mut self.store, &call, inodes)?
        {
            self.clock = self.clock.saturating_add(1);
        }
        Ok(())
    }

    /// Takes the next stamp by its point.
    fn take(&mut self, alloc: Global, stamp: &'a Stamp, inodes: u64) -> Result<(), NoMemory> {
        if stamp.at > self.clock {
            self.settle(alloc, inodes)?;
        }
        if self.change.is_none() && alters(&self.store, &stamp.call.as_call(), inodes) {
            self.change = Some(stamp);
        }
        Ok(())
    }

    /// Takes some stamps by their points, and makes the last change among them.
    fn take_all(
        &mut self,
        alloc: Global,
        stamps: &'a [Stamp],
        inodes: u64,
    ) -> Result<(), NoMemory> {
        for stamp in &by_point(alloc, stamps)? {
            self.take(alloc, *stamp, inodes)?;
        }
        self.settle(alloc, inodes)
    }

    /// The tree after all changes among some stamps.
    pub fn of(alloc: Global, stamps: &'a [Stamp], inodes: u64) -> Result<Replay<'a>, NoMemory> {
        let mut replay = Replay {
            store: SlabStore::new(alloc)?,
            clock: 0,
            change: None,
        };
        replay.take_all(alloc, stamps, inodes)?;
        Ok(replay)
    }
}

/// Whether names lead to the same numbers in a directory of both.
fn lead_alike(one: &SlabStore, other: &SlabStore, dir: u64, names: &[Vec<u8>]) -> bool {
    for name in names {
        let Some(name) = Name::new(name) else {
            return false;
        };
        if one.find(dir, name) != other.find(dir, name) {
            return false;
        }
    }
    true
}

/// Whether both have the same under a number, but for the names in it.
fn agree_but_names(one: &SlabStore, other: &SlabStore, number: u64) -> bool {
    one.kind(number) == other.kind(number)
        && one.parent(number) == other.parent(number)
        && one.text(number) == other.text(number)
        && one.count(number) == other.count(number)
}

/// Whether both have the same under a number.
fn agree_at(
    alloc: Global,
    one: &SlabStore,
    other: &SlabStore,
    number: u64,
) -> Result<bool, NoMemory> {
    let names = one.list(alloc, number)?;
    Ok(
        agree_but_names(one, other, number)
            && names == other.list(alloc, number)?
            && lead_alike(one, other, number, &names),
    )
}

/// Whether both hold the same tree.
pub fn agree(alloc: Global, one: &SlabStore, other: &SlabStore) -> Result<bool, NoMemory> {
    if one.next() != other.next() || one.live() != other.live() {
        return Ok(false);
    }
    for number in 1..one.next() {
        if !agree_at(alloc, one, other, number)? {
            return Ok(false);
        }
    }
    Ok(true)
}
