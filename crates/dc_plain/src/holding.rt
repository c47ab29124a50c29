//! Which facts are true in the tree of the slow machine, and which of them a call touches.

ghost use Rattle.std.specs.Prelude.{◌≡◌, ◌↔◌, map, IsTrue, IfOk};
ghost use Rattle.dc_plain.specs.BytesShown.{text_shown};
ghost use Rattle.dc_plain.specs.FactsShown.{fact_shown};
ghost use Rattle.dc_plain.specs.KeysShown.{label_shown};
ghost use Rattle.dc_plain.specs.Known.{SaySame, TouchesFact};
ghost use Rattle.dc_plain.specs.Plain.{entry_shown, inode_shown, node_shown};
ghost use Rattle.dc_plain.specs.Trees.{Holds, entry_of};

use crate::rows::{Entry, Inode, Node};
use crate::{Call, Fact, Key, Label, PlainTree, Target};
use dc_names::{NoMemory, PathText};
use std::alloc::Global;

impl Node {
    fn copy(&self, alloc: Global) -> Result<Node, NoMemory>
        ensures { IfOk result (λ copy. node_shown copy ≡ node_shown self.now) }
    {
        Ok(match self {
            Node::Directory => Node::Directory,
            Node::Regular => Node::Regular,
            Node::Symbolic(text) => Node::Symbolic(Vec::from_slice(alloc, text)?),
        })
    }
}

fn copy_entries(alloc: Global, entries: &[Entry]) -> Result<Vec<Entry>, NoMemory>
    ensures { IfOk result (λ copies. map entry_shown copies.items ≡ map entry_shown entries.now) }
{
    let mut copies = Vec::new(alloc);
    for entry in entries {
        copies.push(Entry {
            dir: entry.dir,
            name: Vec::from_slice(alloc, &entry.name)?,
            target: entry.target,
        })?;
    }
    Ok(copies)
}

fn copy_inodes(alloc: Global, inodes: &[Inode]) -> Result<Vec<Inode>, NoMemory>
    ensures { IfOk result (λ copies. map inode_shown copies.items ≡ map inode_shown inodes.now) }
{
    let mut copies = Vec::new(alloc);
    for inode in inodes {
        copies.push(Inode {
            number: inode.number,
            node: inode.node.copy(alloc)?,
        })?;
    }
    Ok(copies)
}

impl PlainTree {
    fn copy(&self, alloc: Global) -> Result<PlainTree, NoMemory>
        ensures { IfOk result (λ copy. copy ≡ self.now) }
    {
        Ok(PlainTree {
            entries: copy_entries(alloc, &self.entries)?,
            inodes: copy_inodes(alloc, &self.inodes)?,
            next: self.next,
            limit: self.limit,
        })
    }

    /// Where an entry or a dot-dot leads.
    fn target(&self, directory: u64, label: Label) -> Option<Target>
        ensures { result ≡ entry_of self.now.tree directory (label_shown label.entry) }
    {
        match label {
            Label::Name(name) => self.entry(directory, name.bytes()),
            Label::DotDot => self.parent(directory),
            Label::Text => None,
        }
    }

    /// Whether a fact is true in the tree.
    pub fn holds(&self, fact: &Fact) -> bool
        ensures { IsTrue result ↔ Holds self.now.tree (fact_shown fact.now) }
    {
        match *fact {
            Fact::Entry(_, Label::Text, _) => false,
            Fact::Entry(directory, label, target) => self.target(directory, label) == target,
            Fact::Text(link, text) => match self.text(link) {
                Some(found) => found.bytes() == text.bytes(),
                None => false,
            },
        }
    }

    /// Whether another tree says the same of a key.
    fn agrees(&self, other: &PlainTree, key: Key) -> bool
        ensures { IsTrue result ↔ SaySame other.now.tree self.now.tree key.entry }
    {
        match key.label {
            Label::Name(name) => {
                self.entry(key.number, name.bytes()) == other.entry(key.number, name.bytes())
            }
            Label::DotDot => self.parent(key.number) == other.parent(key.number),
            Label::Text => same_text(self.text(key.number), other.text(key.number)),
        }
    }

    /// Whether a call would make another fact of a fact's key: the call is made on a copy of the
    /// tree. Memory is taken for the copy and for the call.
    pub fn touches(&self, alloc: Global, call: &Call, fact: &Fact) -> Result<bool, NoMemory>
        ensures { IfOk result (λ touches. IsTrue touches ↔ TouchesFact self.now call.now fact.now) }
    {
        let mut later = self.copy(alloc)?;
        later.apply(alloc, call)?;
        Ok(!self.agrees(&later, fact.key()))
    }
}

/// Whether two texts are one, or neither is there.
fn same_text(a: Option<PathText>, b: Option<PathText>) -> bool
    ensures { IsTrue result ↔ text_shown a.entry ≡ text_shown b.entry }
{
    match (a, b) {
        (Some(a), Some(b)) => a.bytes() == b.bytes(),
        (None, None) => true,
        _ => false,
    }
}
