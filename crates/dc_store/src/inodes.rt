//! Inodes in a slab, found by their numbers.

ghost use Rattle.std.specs.Prelude.{◌≡◌, ℕ, ◌<◌, ◌^◌, List, [], length, None, IsSome, IsTrue, IfOk, OnOk, OnErr, IfSome};
ghost use Rattle.std.specs.FinMap.Entries.{put, is_sorted};
ghost use Rattle.std.specs.Ordering.{nat_cmp};
ghost use Rattle.std.specs.Borrow.{sem};
ghost use Rattle.std.specs.Option.{option_copied, option_copied_mut};
ghost use Rattle.dc_store.specs.Inodes.{inode_at, changed, with_name, less_name, one_up, one_down, held_by, count_kept, without_inode, inodes_after, led_to};
ghost use Rattle.dc_store.specs.Lending.{LendsInodeIf};

use crate::inode::Inode;
use crate::slab_keys::SlabKeys;
use dc_names::{Name, NoMemory};
use slab::Slab;
use std::alloc::Global;
use std::marker::Model;

/// Inodes by their numbers, seen as a list in the order of these. Where the slab keeps an inode is seen
/// nowhere, and its slot is used again.
#[derive(Drop)]
pub struct Inodes {
    slab: Slab<Inode>,
    keys: SlabKeys,
}

impl Model for Inodes {
    ghost use Rattle.std.specs.Prelude.{ℕ, List};
    ghost use Rattle.dc_store.specs.declared.inode.Inode.{Inode};

    ghost Value = { List (ℕ × Inode) };

    ghost use Rattle.dc_store.specs.Slots.{inodes_in, IsKept};

    ghost view = { λ s. inodes_in s.slab s.keys };

    ghost invariant = { λ s. IsKept s.slab s.keys };
}

impl Inodes {
    pub fn new(alloc: Global) -> Inodes
        ensures { result ≡ [] }
    {
        Inodes {
            slab: Slab::new(alloc),
            keys: SlabKeys::new(alloc),
        }
    }

    /// Makes room for the keys of recent numbers, which are found without a search.
    pub fn make_room(&mut self, alloc: Global) -> Result<(), NoMemory>
        ensures { self.new ≡ self.old }
    {
        self.keys.make_room(alloc)
    }

    /// How many there are.
    pub fn len(&self) -> u64
        ensures { result ≡ length self.now }
    {
        self.keys.len()
    }

    pub fn get(&self, number: u64) -> Option<&Inode>
        ensures value { option_copied result ≡ inode_at self.now number }
        ensures in_order { IsTrue (is_sorted nat_cmp self.now) }
    {
        let key = self.keys.get(number)?;
        self.slab.get(key)
    }

    /// The inode of a number, to be written.
    fn get_mut(&mut self, number: u64) -> Option<&mut Inode>
        ensures* writes_back { sem 𝓛 (LendsInodeIf self.entry number result) }
        ensures value { option_copied_mut result ≡ inode_at self.old number }
        ensures in_order { IsTrue (is_sorted nat_cmp self.old) }
    {
        let key = self.keys.get_noted(number)?;
        Some(&mut self.slab[key])
    }

    /// Adds an inode under a number under which there is none.
    pub fn insert(&mut self, number: u64, inode: Inode) -> Result<(), NoMemory>
        requires { inode_at self.old number ≡ None }
        ensures ok { OnOk result (self.new ≡ put nat_cmp number inode self.old) }
        ensures err { OnErr result (self.new ≡ self.old) }
    {
        let Ok(key) = self.slab.insert(inode) else {
            return Err(NoMemory);
        };
        let Ok(_) = self.keys.insert(number, key) else {
            self.slab.remove(key);
            return Err(NoMemory);
        };
        Ok(())
    }

    /// Drops the inode of a number, and frees its slot.
    pub fn remove(&mut self, number: u64)
        ensures { self.new ≡ without_inode number self.old }
    {
        if let Some(key) = self.keys.remove(number) {
            self.slab.remove(key);
        }
    }

    /// Puts a name into a directory, and answers where it led before.
    pub fn enter(
        &mut self,
        alloc: Global,
        dir: u64,
        name: Name<'_>,
        number: u64,
    ) -> Result<Option<u64>, NoMemory>
        ensures ok { OnOk result (self.new ≡ changed dir (with_name name.entry.bytes.now number) self.old) }
        ensures before { IfOk result (λ before. before ≡ led_to self.old dir name.entry.bytes.now) }
        ensures err { OnErr result (self.new ≡ self.old) }
    {
        match self.get_mut(dir) {
            Some(inode) => inode.names.insert(alloc, name, number),
            None => Ok(None),
        }
    }

    /// Lets a name that is there lead elsewhere. It takes no memory.
    pub fn redirect(&mut self, dir: u64, name: Name<'_>, number: u64)
        requires { IsSome (led_to self.old dir name.bytes.now) }
        ensures { self.new ≡ changed dir (with_name name.entry.bytes.now number) self.old }
    {
        if let Some(inode) = self.get_mut(dir) {
            inode.names.redirect(name, number);
        }
    }

    /// Takes a name out of a directory, and answers where it led.
    pub fn leave(&mut self, dir: u64, name: Name<'_>) -> Option<u64>
        ensures rest { self.new ≡ changed dir (less_name name.entry.bytes.now) self.old }
        ensures before { result ≡ led_to self.old dir name.entry.bytes.now }
    {
        self.get_mut(dir)?.names.remove(name)
    }

    /// Counts one entry more for an inode.
    pub fn count_up(&mut self, number: u64)
        requires { IfSome (inode_at self.old number) (λ inode. inode.count < 2 ^ 63) }
        ensures { self.new ≡ changed number one_up self.old }
    {
        if let Some(inode) = self.get_mut(number) {
            inode.count += 1;
        }
    }

    /// Counts one entry less for what lost one, which goes if that was its last.
    pub fn lose(&mut self, lost: Option<u64>)
        requires { IfSome lost (λ n. IfSome (inode_at self.old n) (λ inode. 0 < inode.count)) }
        ensures { self.new ≡ inodes_after lost self.old }
    {
        if let Some(number) = lost
            && self.count_down(number) == 0
        {
            self.remove(number);
        }
    }

    /// Counts one entry less for an inode, and answers how many lead to it still.
    fn count_down(&mut self, number: u64) -> u64
        requires { IfSome (inode_at self.old number) (λ inode. 0 < inode.count) }
        ensures new { self.new ≡ changed number one_down self.old }
        ensures left { result ≡ count_kept self.new number }
    {
        let Some(inode) = self.get_mut(number) else {
            return 0;
        };
        inode.count -= 1;
        inode.count
    }

    /// Writes a directory's parent. It leaves what is no directory.
    pub fn set_parent(&mut self, number: u64, parent: u64)
        ensures { self.new ≡ changed number (held_by parent) self.old }
    {
        if let Some(inode) = self.get_mut(number) {
            inode.node.set_parent(parent);
        }
    }
}
