//! Which key stands in which row of the cache.
#![tactic(auto)]

mod hashed;
mod index;
mod slot;

pub use hashed::HashedKey;
pub use index::{Index, bucket_at};
