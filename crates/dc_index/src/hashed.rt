//! Keys with their hashes.

ghost use Rattle.std.specs.Prelude.{◌≡◌, ◌<◌};
ghost use Rattle.dc_index.specs.Slots.{bucket_of, key_hash};
ghost use Rattle.dc_plain.specs.KeysShown.{key_shown};

use crate::index::bucket_at;
use dc_names::hash;
use dc_plain::Key;

/// A key with its hash, so that it is hashed once for all that is asked of it.
#[derive(Clone, Copy)]
pub struct HashedKey<'a> {
    /// The key.
    pub key: Key<'a>,
    /// The hash of its number and of its label's bytes: a name, the two dots of dot-dot, or none for a text.
    pub hash: u64,
    ghost hashed: { hash ≡ key_hash (key_shown key) },
}

impl<'a> HashedKey<'a> {
    /// A key, which is hashed.
    #[must_use]
    pub fn new(key: Key<'a>) -> HashedKey<'a>
        ensures { result.key ≡ key.entry }
    {
        HashedKey {
            key,
            hash: hash(key.number, key.label.bytes()),
        }
    }

    /// The bucket of the key among this many, at least one.
    #[must_use]
    pub fn bucket(&self, buckets: u64) -> u64
        requires { 0 < buckets }
        ensures bucket { result ≡ bucket_of (key_shown self.now.key) buckets }
        ensures within { result < buckets }
    {
        bucket_at(self.hash, buckets)
    }
}
