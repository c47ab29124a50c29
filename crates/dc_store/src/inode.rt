//! An inode of the slab store.

use crate::names::Names;
use crate::node::Node;

/// What a slab store keeps of an inode.
#[derive(Drop)]
pub struct Inode {
    /// Its kind, with a directory's parent or a link's text.
    pub node: Node,
    /// The names in it. In what is no directory there are none.
    pub names: Names,
    /// How many entries lead to it.
    pub count: u64,
}
