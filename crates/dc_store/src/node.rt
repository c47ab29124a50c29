//! What a store keeps under a number: the kind, with a parent or a text.

ghost use Rattle.std.specs.Prelude.{◌≡◌, map, option_map};
ghost use Rattle.dc_plain.specs.Trees.{kind_of, text_in};
ghost use Rattle.dc_store.specs.Maps.{inode_shown, node_shown, nodes_after, parent_kept, with_parent};
ghost use Rattle.dc_store.specs.Nodes.{AreAmong, WritesParent};

use crate::entries::Entries;
use dc_names::Kind;
use std::collections::BTreeMap;

/// What a store keeps under a number.
#[derive(Drop)]
pub enum Node {
    /// A directory, with the number of its parent. The root's is the root.
    Dir(u64),
    File,
    /// A link, with its text.
    Link(Vec<u8>),
}

impl Node {
    pub fn kind(&self) -> Kind
        ensures { result ≡ kind_of (node_shown self.now) }
    {
        match self {
            Node::Dir(_) => Kind::Dir,
            Node::File => Kind::File,
            Node::Link(_) => Kind::Link,
        }
    }

    pub fn parent(&self) -> Option<u64>
        ensures { result ≡ parent_kept self.now }
    {
        match self {
            Node::Dir(parent) => Some(*parent),
            Node::File | Node::Link(_) => None,
        }
    }

    pub fn set_parent(&mut self, parent: u64)
        ensures { self.new ≡ with_parent parent self.old }
    {
        if let Node::Dir(kept) = self {
            *kept = parent;
        }
    }

    pub fn text(&self) -> Option<&[u8]>
        ensures { option_map (λ text. text.now) result ≡ text_in (node_shown self.now) }
    {
        match self {
            Node::Dir(_) | Node::File => None,
            Node::Link(text) => Some(text),
        }
    }
}

/// Writes a directory's parent. It leaves what is no directory.
pub fn set_parent(nodes: &mut BTreeMap<u64, Node>, number: u64, parent: u64)
    ensures shown { map inode_shown nodes.new.entries ≡ map inode_shown nodes.old.entries }
    ensures set { WritesParent number parent nodes.old.entries nodes.new.entries }
{
    if let Some(node) = nodes.get_mut(&number) {
        node.set_parent(parent);
    }
}

/// Drops the node of what lost an entry, if no entry leads to it any more.
pub fn drop_unnamed(nodes: &mut BTreeMap<u64, Node>, entries: &Entries, lost: Option<u64>)
    ensures rest { nodes.new.entries ≡ nodes_after lost entries.now nodes.old.entries }
    ensures kept { AreAmong nodes.new.entries nodes.old.entries }
{
    if let Some(number) = lost
        && entries.names(number) == 0
    {
        nodes.remove(&number);
    }
}
