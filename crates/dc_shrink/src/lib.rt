//! Which rows of the cache are in use, and which one goes next.
#![tactic(auto)]

mod bucket;
mod fault;
mod shrinker;

pub use fault::PinFault;
pub use shrinker::Shrinker;
