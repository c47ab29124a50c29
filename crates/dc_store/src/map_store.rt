//! The store in two ordered maps, which tests compare with the other one.

ghost use Rattle.std.specs.Prelude.{◌≡◌, ◌<◌, None, Some, option_map, IfSome, IfOk, OnOk, OnErr, IsTrue};
ghost use Rattle.dc_plain.specs.Effects.{with_new, with_entry_for};
ghost use Rattle.dc_plain.specs.IsWellFormed.{IsWellFormed};
ghost use Rattle.dc_plain.specs.Trees.{Tree, empty_tree, inode_of, entry_number, is_live_directory};
ghost use Rattle.dc_plain.specs.Conditions.{CanBeNamed};
ghost use Rattle.dc_store.specs.Maps.{tree_in, node_shown, IsNodeAt, CanKeep, IsSound};
ghost use Rattle.dc_store.specs.Moved.{CanStandAt, tree_moved};
ghost use Rattle.dc_plain.specs.Spots.{spot_at, spot_shown};
ghost use Rattle.dc_names.specs.declared.limits.TheConstants.{NUMBER_LIMIT};

use crate::entries::Entries;
use crate::laws::trees_keep_their_laws;
use crate::node::{Node, drop_unnamed, set_parent};
use crate::store::{New, Store};
use dc_names::{Kind, Name, NoMemory};
use dc_plain::Spot;
use std::alloc::Global;
use std::collections::BTreeMap;
use std::marker::Model;

/// A store in two ordered maps: entries under their keys, and nodes under their numbers.
#[derive(Drop)]
pub struct MapStore {
    entries: Entries,
    nodes: BTreeMap<u64, Node>,
    next: u64,
}

impl Model for MapStore {
    ghost Value = { Tree };

    ghost view = { λ s. tree_in s.entries s.nodes.entries s.next };

    ghost invariant = { λ s. IsSound s.entries s.nodes.entries s.next };
}

impl MapStore {
    /// A store with the root directory alone.
    pub fn new(alloc: Global) -> Result<MapStore, NoMemory>
        ensures { IfOk result (λ store. store ≡ empty_tree) }
    {
        let mut nodes = BTreeMap::new(alloc);
        nodes.insert(1, Node::Dir(1))?;
        Ok(MapStore {
            entries: Entries::new(alloc),
            nodes,
            next: 2,
        })
    }

    /// What is kept under a number.
    fn node(&self, number: u64) -> Option<&Node>
        ensures shown { option_map (λ node. node_shown node.now) result ≡ inode_of self.now number }
        ensures kept { IfSome result (λ node. IsNodeAt self.now number node.now) }
        ensures well { IsWellFormed self.now }
    {
        self.nodes.get(&number)
    }

    /// Adds a node under the next number, and an entry for it. The node goes again if the entry
    /// finds no memory.
    fn make(&mut self, alloc: Global, dir: u64, name: Name<'_>, node: Node) -> Result<u64, NoMemory>
        requires directory { IsTrue (is_live_directory self.old dir) }
        requires free { entry_number self.old (spot_at dir name.bytes.now) ≡ None }
        requires room { self.old.next < NUMBER_LIMIT }
        requires fits { CanKeep dir node }
        ensures ok { OnOk result (self.new
            ≡ with_new self.old dir name.entry.bytes.now (node_shown node)) }
        ensures number { IfOk result (λ number. number ≡ self.old.next) }
        ensures err { OnErr result (self.new ≡ self.old) }
    {
        trees_keep_their_laws();
        let number = self.next;
        self.nodes.insert(number, node)?;
        let Ok(_) = self.entries.insert(alloc, dir, name, number) else {
            self.nodes.remove(&number);
            return Err(NoMemory);
        };
        self.next += 1;
        Ok(number)
    }

    /// Adds an entry for what lives.
    fn link(&mut self, alloc: Global, dir: u64, name: Name<'_>, number: u64) -> Result<(), NoMemory>
        requires directory { IsTrue (is_live_directory self.old dir) }
        requires free { entry_number self.old (spot_at dir name.bytes.now) ≡ None }
        requires can { CanBeNamed self.old number }
        ensures ok { OnOk result (self.new
            ≡ with_entry_for self.old dir name.entry.bytes.now number) }
        ensures err { OnErr result (self.new ≡ self.old) }
    {
        trees_keep_their_laws();
        self.entries.insert(alloc, dir, name, number)?;
        Ok(())
    }

    /// Moves an entry. To put it in is the one step that can fail, and comes first.
    fn relocate(
        &mut self,
        alloc: Global,
        old: Spot<'_>,
        new: Spot<'_>,
        number: u64,
    ) -> Result<(), NoMemory>
        requires leads { entry_number self.old (spot_shown old) ≡ Some number }
        requires stands { CanStandAt self.old (spot_shown new) number }
        ensures ok { OnOk result (self.new
            ≡ tree_moved self.old (spot_shown old.entry) (spot_shown new.entry) number) }
        ensures err { OnErr result (self.new ≡ self.old) }
    {
        trees_keep_their_laws();
        let replaced = self.entries.insert(alloc, new.dir, new.name, number)?;
        // A file under both names for a moment is never seen: nothing can fail from here on.
        self.entries.remove(old.dir, old.name);
        drop_unnamed(&mut self.nodes, &self.entries, replaced);
        set_parent(&mut self.nodes, number, new.dir);
        Ok(())
    }
}

impl Store for MapStore {
    ghost tree = { λ store. store };

    fn find(&self, dir: u64, name: Name<'_>) -> Option<u64> {
        self.entries.get(dir, name)
    }

    fn kind(&self, number: u64) -> Option<Kind> {
        let node = self.node(number)?;
        Some(node.kind())
    }

    fn parent(&self, number: u64) -> Option<u64> {
        self.node(number)?.parent()
    }

    fn text(&self, number: u64) -> Option<&[u8]> {
        self.node(number)?.text()
    }

    fn live(&self) -> u64 {
        self.nodes.len() as u64
    }

    fn next(&self) -> u64 {
        self.next
    }

    fn count(&self, number: u64) -> u64 {
        match self.kind(number) {
            Some(Kind::Dir) => self.entries.held(number),
            Some(Kind::File) => self.entries.names(number),
            Some(Kind::Link) => self.entries.names(number),
            None => 0,
        }
    }

    fn list(&self, alloc: Global, dir: u64) -> Result<Vec<Vec<u8>>, NoMemory> {
        self.entries.list(alloc, dir)
    }

    fn add(
        &mut self,
        alloc: Global,
        dir: u64,
        name: Name<'_>,
        new: New<'_>,
    ) -> Result<u64, NoMemory> {
        match new {
            New::Dir => self.make(alloc, dir, name, Node::Dir(dir)),
            New::File => self.make(alloc, dir, name, Node::File),
            New::Link(text) => {
                let text = text.bytes().to_vec(alloc)?;
                self.make(alloc, dir, name, Node::Link(text))
            }
            New::Same(number) => {
                self.link(alloc, dir, name, number)?;
                Ok(number)
            }
        }
    }

    fn drop_entry(&mut self, dir: u64, name: Name<'_>) {
        trees_keep_their_laws();
        let lost = self.entries.remove(dir, name);
        drop_unnamed(&mut self.nodes, &self.entries, lost);
    }

    fn move_entry(
        &mut self,
        alloc: Global,
        old: Spot<'_>,
        new: Spot<'_>,
        number: u64,
    ) -> Result<(), NoMemory> {
        self.relocate(alloc, old, new, number)
    }

    fn swap_entries(&mut self, a: Spot<'_>, first: u64, b: Spot<'_>, second: u64) {
        trees_keep_their_laws();
        self.entries.redirect(a.dir, a.name, second);
        self.entries.redirect(b.dir, b.name, first);
        // A directory whose dot-dot still led to its old parent would not be found from there.
        set_parent(&mut self.nodes, first, b.dir);
        set_parent(&mut self.nodes, second, a.dir);
    }
}
