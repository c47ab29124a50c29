//! The sizes that a table may have. What a server or the event core may be asked for is less:
//! `MOST_BUCKETS` and `MOST_INODES`.

ghost use Rattle.std.specs.Prelude.{◌≡◌};
ghost use Rattle.dc_names.specs.Tables.{fit_a_table};

use crate::{MOST_TABLE_BUCKETS, MOST_TABLE_INODES};

/// Whether a table may have this many buckets, and this many inodes live in its tree.
#[must_use]
pub fn fit_a_table(buckets: u64, max_inodes: u64) -> bool
    ensures { result ≡ fit_a_table buckets max_inodes }
{
    (1..=MOST_TABLE_BUCKETS).contains(&buckets)
        && buckets.is_power_of_two()
        && (1..=MOST_TABLE_INODES).contains(&max_inodes)
}
