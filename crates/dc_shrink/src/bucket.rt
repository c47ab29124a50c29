//! The order of use within each bucket: a bucket's victim is found among its rows, not in the whole list.

ghost use Rattle.std.specs.Prelude.{◌≡◌, ◌<◌, ◌/◌, ◌^◌, [], ◌∷◌, filter, length, is_some, nat_eq, slice_index_or, map, IfOk};
ghost use Rattle.std.specs.Int.{div_ceil};
ghost use Rattle.std.specs.List.{range_with_len};
ghost use Rattle.std.specs.Map.{lookup};
ghost use Rattle.dc_names.specs.declared.limits.TheConstants.{MOST_COUNT};
ghost use Rattle.dc_shrink.specs.Listings.{without, last_of};
ghost use Rattle.dc_shrink.specs.Orders.{four_rows, promoted_in};

use dc_names::BUCKET_ROWS;
use lru::LruCache;
use std::alloc::{AllocError, Global};
use std::marker::Model;

/// How many rows a bucket has, as the length of an array.
const ROWS: usize = BUCKET_ROWS as usize;

/// The rows of a bucket. The listed ones stand as in the list, the others anywhere.
#[derive(Drop)]
pub(crate) struct Bucket {
    rows: [u64; ROWS],
}

impl Model for Bucket {
    ghost use Rattle.std.specs.Prelude.{ℕ, List};

    ghost Value = { List ℕ };

    ghost view = { λ b. b.rows };
}

impl Bucket {
    /// The rows of a bucket in the order of their numbers.
    pub(crate) fn of(number: u64) -> Bucket
        requires { number < MOST_COUNT }
        ensures { result ≡ four_rows number }
    {
        let first = BUCKET_ROWS * number;
        Bucket {
            rows: [first, first + 1, first + 2, first + 3],
        }
    }

    /// Puts one of the rows first.
    pub(crate) fn promote(&mut self, row: u64)
        requires { length (filter (nat_eq row) self.old) ≡ 1 }
        ensures { self.new ≡ row ∷ without row self.old }
    {
        if let Some(at) = self.rows.iter().position(|own| *own == row) {
            self.rows[..at + 1].rotate_right(1);
        }
    }

    /// The last of the rows that are listed.
    pub(crate) fn last_listed(&self, listed: &LruCache<u64, ()>) -> Option<u64>
        ensures { result
            ≡ last_of (filter (λ row. is_some (lookup (nat_eq row) listed.now.entries)) self.now) }
    {
        let mut last_first = self.rows.iter().rev();
        last_first.find(|row| listed.contains(*row)).copied()
    }
}

/// Puts a row first in its bucket.
pub(crate) fn promote(buckets: &mut [Bucket], row: u64)
    requires within { row / BUCKET_ROWS < length buckets.old }
    requires once { length (filter (nat_eq row) (slice_index_or buckets.old (row / BUCKET_ROWS) [])) ≡ 1 }
    ensures { buckets.new ≡ promoted_in buckets.old row }
{
    let bucket = &mut buckets[(row / BUCKET_ROWS) as usize];
    bucket.promote(row);
}

/// The buckets of this many rows.
pub(crate) fn buckets_of(alloc: Global, rows: u64) -> Result<Vec<Bucket>, AllocError>
    ensures { IfOk result (λ b. b.items ≡ map four_rows (range_with_len 0 (div_ceil rows BUCKET_ROWS))) }
{
    (0..rows.div_ceil(BUCKET_ROWS))
        .map(Bucket::of)
        .collect(alloc)
}
