//! Buckets, inodes, and whether to count: the options of a server, and their limits.

ghost use Rattle.std.specs.Prelude.{◌≡◌};
ghost use Rattle.dc_names.specs.Sizes.{are_right};

use dc_names::are_right;

/// What a server is started with.
#[derive(Clone, Copy, Debug, PartialEq, Eq)]
pub struct Options {
    /// Buckets of the cache: a power of two from 1 to 1,024.
    pub buckets: u64,
    /// How many inodes may live: from 1 to 1,048,576.
    pub inodes: u64,
    /// Whether the gate learns at the end how many rows are filled.
    pub stats: bool,
}

impl Options {
    /// Whether each size is within its limits.
    pub fn are_right(&self) -> bool
        ensures { result ≡ are_right self.now.buckets self.now.inodes }
    {
        are_right(self.buckets, self.inodes)
    }
}
