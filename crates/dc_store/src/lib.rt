//! Stores of inodes and entries: each stands for a plain tree.
#![tactic(auto)]

mod entries;
mod entry_bytes;
mod inode;
mod inodes;
mod laws;
mod map_store;
mod name_bytes;
mod names;
mod node;
mod pages;
mod slab_keys;
mod slab_store;
mod store;

pub use laws::pages_leave_no_gap;
pub use map_store::MapStore;
pub use pages::Entry;
pub use slab_store::SlabStore;
pub use store::{New, Store};
