//! The makers of what takes memory.

use crate::fault::Fault;
use crate::probe::{Plan, told};
use crate::told::Told;
use dc_cache::Dcache;
use dc_core::Core;
use dc_index::Index;
use dc_plain::PlainTree;
use dc_shrink::Shrinker;
use dc_store::{MapStore, SlabStore};
use dc_table::Shared;
use std::alloc::Global;

/// What is made.
#[derive(Clone, Copy)]
pub enum Kind {
    Shrinker,
    Index,
    MapStore,
    SlabStore,
    PlainTree,
    Shared,
    Cache,
    Core,
}

/// The kind with this name.
pub fn kind_of(name: &str) -> Option<Kind> {
    match name {
        "new_shrinker" => Some(Kind::Shrinker),
        "new_index" => Some(Kind::Index),
        "new_map_store" => Some(Kind::MapStore),
        "new_slab_store" => Some(Kind::SlabStore),
        "new_plain_tree" => Some(Kind::PlainTree),
        "new_shared" => Some(Kind::Shared),
        "new_cache" => Some(Kind::Cache),
        "new_core" => Some(Kind::Core),
        _ => None,
    }
}

/// Makes one, and says whether it was made.
fn is_made(alloc: Global, kind: Kind) -> bool {
    match kind {
        Kind::Shrinker => Shrinker::new(alloc, 64).is_ok(),
        Kind::Index => Index::new(alloc, 16).is_ok(),
        Kind::MapStore => MapStore::new(alloc).is_ok(),
        Kind::SlabStore => SlabStore::new(alloc).is_ok(),
        Kind::PlainTree => PlainTree::new(alloc, 16).is_ok(),
        Kind::Shared => Shared::new(alloc, 16, 64).is_ok(),
        Kind::Cache => Dcache::new(alloc, 16, 64).is_ok(),
        Kind::Core => Core::new(alloc, 1, 2, 16).is_ok(),
    }
}

/// Makes one with an allocation refused, and then once more.
pub fn trial(alloc: Global, plan: &Plan<'_>, kind: Kind) -> Result<Told, Fault> {
    if plan.setup {
        return Ok(told(plan.place(alloc), true));
    }
    let made = is_made(alloc, kind);
    let place = plan.place(alloc);
    if !is_made(alloc, kind) {
        return Ok(Told::Wrong("not made with memory"));
    }
    Ok(told(place, made))
}
