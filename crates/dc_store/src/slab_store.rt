//! The store that the cache holds: inodes in a slab, and the names of each directory in an ordered map.

ghost use Rattle.std.specs.Prelude.{◌≡◌, ◌<◌, [], None, Some, map, option_map, IfSome, IfNone, IfOk, OnOk, OnErr, IsTrue, ◌≢◌, ℕ, List, false};
ghost use Rattle.dc_plain.specs.Effects.{with_new, with_entry_for};
ghost use Rattle.dc_plain.specs.IsWellFormed.{IsWellFormed};
ghost use Rattle.dc_plain.specs.Trees.{Tree, Spot as PlainSpot, empty_tree, inode_of, entry_number, names_in, is_live_directory};
ghost use Rattle.dc_plain.specs.Conditions.{CanBeNamed};
ghost use Rattle.dc_store.specs.Inodes.{tree_of};
ghost use Rattle.dc_store.specs.Maps.{node_shown, CanKeep};
ghost use Rattle.dc_store.specs.Moved.{CanStandAt, tree_moved};
ghost use Rattle.dc_store.specs.Pages.{leads_shown, name_shown, page_of, page_told, told_in};
ghost use Rattle.dc_store.specs.Slabs.{IsTied, IsInodeAt};
ghost use Rattle.dc_plain.specs.Spots.{spot_at, spot_shown};
ghost use Rattle.dc_names.specs.Bytes.{is_name};
ghost use Rattle.dc_names.specs.declared.limits.TheConstants.{NUMBER_LIMIT};

use crate::inode::Inode;
use crate::inodes::Inodes;
use crate::laws::trees_keep_their_laws;
use crate::names::Names;
use crate::node::Node;
use crate::pages::{Entry, Led};
use crate::store::{New, Store};
use dc_names::{Kind, Name, NoMemory};
use dc_plain::{Spot, directories_have_one_holder, names_lead_to_the_living};
use std::alloc::Global;
use std::marker::Model;

/// A store of inodes in a slab. Each directory has an ordered map of its own names, and each inode counts
/// the entries that lead to it, so that no call scans the tree.
#[derive(Drop)]
pub struct SlabStore {
    inodes: Inodes,
    next: u64,
    /// How many entries there are, and the most that it takes. No clause speaks of them.
    entries: u64,
    most_entries: u64,
}

impl Model for SlabStore {
    ghost Value = { Tree };

    ghost view = { λ s. tree_of s.inodes s.next };

    ghost invariant = { λ s. IsTied s.inodes s.next };
}

impl SlabStore {
    /// A store with the root directory alone, which takes any number of entries.
    pub fn new(alloc: Global) -> Result<SlabStore, NoMemory>
        ensures { IfOk result (λ store. store ≡ empty_tree) }
    {
        SlabStore::with_entries(alloc, u64::MAX)
    }

    /// A store with the root directory alone, which takes at most this many entries: one more is
    /// `NoMemory`, as if memory had been refused.
    pub fn with_entries(alloc: Global, most_entries: u64) -> Result<SlabStore, NoMemory>
        ensures { IfOk result (λ store. store ≡ empty_tree) }
    {
        let mut inodes = Inodes::new(alloc);
        inodes.make_room(alloc)?;
        let root = Inode {
            node: Node::Dir(1),
            names: Names::new(alloc),
            count: 0,
        };
        inodes.insert(1, root)?;
        Ok(SlabStore {
            inodes,
            next: 2,
            entries: 0,
            most_entries,
        })
    }

    /// Where a directory stands: in which directory, and under which name. `None` for the root, and if no
    /// directory lives under the number. Its inode has no name, so the names in the directory above are
    /// looked at one after another, in the order of their bytes.
    pub fn own_entry(&self, number: u64) -> Option<(u64, &[u8])>
        ensures found { IfSome result (λ r.
            entry_number self.now (spot_at r.0 r.1.now) ≡ Some number) }
        ensures alone { IfSome result (λ r. IsTrue (is_live_directory self.now number) →
            (spot : PlainSpot) → entry_number self.now spot ≡ Some number
            → spot ≡ spot_at r.0 r.1.now) }
        ensures named { IfSome result (λ r. IsTrue (is_name r.1.now)) }
        ensures none { IfNone result (number ≢ 1 → is_live_directory self.now number ≡ false) }
        ensures well { IsWellFormed self.now }
    {
        directories_have_one_holder();
        names_lead_to_the_living();
        let inode = self.inode(number)?;
        let dir = inode.node.parent()?;
        let name = self.leading_to(dir, number)?;
        Some((dir, name))
    }

    /// A name in a directory that leads to a number.
    fn leading_to(&self, dir: u64, number: u64) -> Option<&[u8]>
        ensures found { IfSome result (λ name.
            entry_number self.now (spot_at dir name.now) ≡ Some number) }
        ensures none { IfNone result ((name : List ℕ) →
            entry_number self.now (spot_at dir name) ≢ Some number) }
        ensures well { IsWellFormed self.now }
    {
        self.inodes.get(dir)?.names.leading_to(number)
    }

    /// What is kept under a number.
    fn inode(&self, number: u64) -> Option<&Inode>
        ensures shown { option_map (λ inode. node_shown inode.now.node) result
            ≡ inode_of self.now number }
        ensures kept { IfSome result (λ inode. IsInodeAt self.now number inode.now) }
        ensures absent { IfNone result ([] ≡ names_in self.now number) }
        ensures well { IsWellFormed self.now }
    {
        self.inodes.get(number)
    }

    /// The entries of a directory behind a name, or all, at most this many, in the order of the bytes of
    /// their names. None if no directory lives under the number. It costs as much for
    /// each entry that it tells as a search, whatever the directory holds.
    pub fn page(
        &self,
        alloc: Global,
        dir: u64,
        after: Option<Name<'_>>,
        most: usize,
    ) -> Result<Vec<Entry>, NoMemory>
        ensures told { IfOk result (λ page.
            page_told page ≡ page_of self.now dir (name_shown after.entry) most) }
    {
        match self.inodes.get(dir) {
            Some(inode) => self.with_kinds(alloc, inode.names.page(alloc, after, most)?),
            None => Ok(Vec::new(alloc)),
        }
    }

    /// Entries of a directory, each with the kind of what its name leads to.
    fn with_kinds(&self, alloc: Global, leads: Vec<Led>) -> Result<Vec<Entry>, NoMemory>
        ensures { IfOk result (λ page.
            page_told page ≡ map (told_in self.now) (leads_shown leads)) }
    {
        let mut page = Vec::new(alloc);
        for Led { name, number } in leads {
            // A name leads to what lives.
            let kind = self.kind(number).unwrap_or(Kind::File);
            page.push(Entry { name, number, kind })?;
        }
        Ok(page)
    }

    /// Adds an inode under the next number, and an entry for it. The inode goes again if the entry
    /// finds no memory.
    fn make(&mut self, alloc: Global, dir: u64, name: Name<'_>, node: Node) -> Result<u64, NoMemory>
        requires directory { IsTrue (is_live_directory self.old dir) }
        requires free { entry_number self.old (spot_at dir name.bytes.now) ≡ None }
        requires room { self.old.next < NUMBER_LIMIT }
        requires fits { CanKeep dir node }
        ensures ok { OnOk result (self.new
            ≡ with_new self.old dir name.entry.bytes.now (node_shown node)) }
        ensures number { IfOk result (λ number. number ≡ self.old.next) }
        ensures err { OnErr result (self.new ≡ self.old) }
    {
        trees_keep_their_laws();
        if self.entries >= self.most_entries {
            return Err(NoMemory);
        }
        let number = self.next;
        let inode = Inode {
            node,
            names: Names::new(alloc),
            count: 1,
        };
        self.inodes.insert(number, inode)?;
        let Ok(_) = self.inodes.enter(alloc, dir, name, number) else {
            self.inodes.remove(number);
            return Err(NoMemory);
        };
        self.next += 1;
        self.entries = self.entries.saturating_add(1);
        Ok(number)
    }

    /// Adds an entry for what lives. To put it in is the one step that can fail, and comes first.
    fn link(&mut self, alloc: Global, dir: u64, name: Name<'_>, number: u64) -> Result<(), NoMemory>
        requires directory { IsTrue (is_live_directory self.old dir) }
        requires free { entry_number self.old (spot_at dir name.bytes.now) ≡ None }
        requires can { CanBeNamed self.old number }
        ensures ok { OnOk result (self.new
            ≡ with_entry_for self.old dir name.entry.bytes.now number) }
        ensures err { OnErr result (self.new ≡ self.old) }
    {
        trees_keep_their_laws();
        if self.entries >= self.most_entries {
            return Err(NoMemory);
        }
        self.inodes.enter(alloc, dir, name, number)?;
        self.inodes.count_up(number);
        self.entries = self.entries.saturating_add(1);
        Ok(())
    }

    /// Moves an entry. To put it in is the one step that can fail, and comes first.
    fn relocate(
        &mut self,
        alloc: Global,
        old: Spot<'_>,
        new: Spot<'_>,
        number: u64,
    ) -> Result<(), NoMemory>
        requires leads { entry_number self.old (spot_shown old) ≡ Some number }
        requires stands { CanStandAt self.old (spot_shown new) number }
        ensures ok { OnOk result (self.new
            ≡ tree_moved self.old (spot_shown old.entry) (spot_shown new.entry) number) }
        ensures err { OnErr result (self.new ≡ self.old) }
    {
        trees_keep_their_laws();
        let replaced = self.inodes.enter(alloc, new.dir, new.name, number)?;
        self.entries = self.entries.saturating_sub(replaced.is_some() as u64);
        // A file under both names for a moment is never seen: nothing can fail from here on.
        self.inodes.leave(old.dir, old.name);
        self.inodes.lose(replaced);
        self.inodes.set_parent(number, new.dir);
        Ok(())
    }
}

impl Store for SlabStore {
    ghost tree = { λ store. store };

    /// The names of a directory are in the order of their bytes, so no hash is made.
    fn find(&self, dir: u64, name: Name<'_>) -> Option<u64> {
        self.inodes.get(dir)?.names.get(name)
    }

    fn kind(&self, number: u64) -> Option<Kind> {
        let inode = self.inode(number)?;
        Some(inode.node.kind())
    }

    fn parent(&self, number: u64) -> Option<u64> {
        self.inode(number)?.node.parent()
    }

    fn text(&self, number: u64) -> Option<&[u8]> {
        self.inode(number)?.node.text()
    }

    fn live(&self) -> u64 {
        self.inodes.len()
    }

    fn next(&self) -> u64 {
        self.next
    }

    fn count(&self, number: u64) -> u64 {
        match self.inode(number) {
            Some(inode) => match inode.node {
                Node::Dir(_) => inode.names.len(),
                Node::File | Node::Link(_) => inode.count,
            },
            None => 0,
        }
    }

    fn list(&self, alloc: Global, dir: u64) -> Result<Vec<Vec<u8>>, NoMemory> {
        match self.inode(dir) {
            Some(inode) => inode.names.list(alloc),
            None => Ok(Vec::new(alloc)),
        }
    }

    fn add(
        &mut self,
        alloc: Global,
        dir: u64,
        name: Name<'_>,
        new: New<'_>,
    ) -> Result<u64, NoMemory> {
        match new {
            New::Dir => self.make(alloc, dir, name, Node::Dir(dir)),
            New::File => self.make(alloc, dir, name, Node::File),
            New::Link(text) => {
                let text = text.bytes().to_vec(alloc)?;
                self.make(alloc, dir, name, Node::Link(text))
            }
            New::Same(number) => {
                self.link(alloc, dir, name, number)?;
                Ok(number)
            }
        }
    }

    fn drop_entry(&mut self, dir: u64, name: Name<'_>) {
        trees_keep_their_laws();
        let lost = self.inodes.leave(dir, name);
        self.inodes.lose(lost);
        self.entries = self.entries.saturating_sub(1);
    }

    fn move_entry(
        &mut self,
        alloc: Global,
        old: Spot<'_>,
        new: Spot<'_>,
        number: u64,
    ) -> Result<(), NoMemory> {
        self.relocate(alloc, old, new, number)
    }

    fn swap_entries(&mut self, a: Spot<'_>, first: u64, b: Spot<'_>, second: u64) {
        trees_keep_their_laws();
        self.inodes.redirect(a.dir, a.name, second);
        self.inodes.redirect(b.dir, b.name, first);
        // A directory whose dot-dot still led to its old parent would not be found from there.
        self.inodes.set_parent(first, b.dir);
        self.inodes.set_parent(second, a.dir);
    }
}
