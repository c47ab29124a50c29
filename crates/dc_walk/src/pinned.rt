//! The source of a counted walk: each row that it needs is filled and pinned under the lock.

ghost use Rattle.std.specs.Prelude.{◌≡◌, true};

use crate::source::{Lane, Source};
use dc_index::HashedKey;
use dc_names::NoMemory;
use dc_plain::Key;
use dc_rows::pin;
use dc_table::{Pass, Reader, Shared};
use std::alloc::Global;
use std::sync::Wait;

/// The key's own row, which is filled from the tree under the lock if no row has the key, and pinned.
/// A walk by such rows takes their pins back.
#[derive(Drop)]
pub(crate) struct Pinning<'a, R> {
    pub shared: &'a Shared,
    pub rt: &'a R,
    pub alloc: Global,
}

impl<'a, R: Wait> Source for Pinning<'a, R> {
    ghost locks = { true };

    ghost serves = { λ source table. source.shared.now ≡ table };

    /// No row if none can be had.
    fn rows_of(
        &self,
        _reader: Reader<'_>,
        pass: &mut Pass,
        key: Key<'_>,
        hash: u64,
    ) -> Result<Lane, NoMemory> {
        match pin(
            self.shared,
            self.rt,
            self.alloc,
            pass,
            &HashedKey { key, hash },
        )? {
            Some(first) => Ok(Lane { first, len: 1 }),
            None => Ok(Lane { first: 0, len: 0 }),
        }
    }
}
