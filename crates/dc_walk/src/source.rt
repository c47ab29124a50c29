//! The sources of rows: the key's bucket as it is, or rows that are had under the lock (`pinned`).

ghost use Rattle.std.specs.Prelude.{◌≡◌, ◌*◌, ◌/◌, Bool, true, false, IfOk, OnErr};
ghost use Rattle.dc_plain.specs.KeysShown.{key_shown};
ghost use Rattle.dc_table.specs.Passes.{view, share, IsSamePass, IsIdle};
ghost use Rattle.dc_table.specs.Holders.{table_of};
ghost use Rattle.dc_table.specs.declared.shared.Shared.{Shared};
ghost use Rattle.dc_index.specs.Slots.{key_hash};
ghost use Rattle.dc_walk.specs.Findings.{CanWalk};
ghost use Rattle.dc_walk.specs.Sources.{IsHead, IsUntried, PinsIts, Rests, Serves};

use dc_index::bucket_at;
use dc_names::{BUCKET_ROWS, NoMemory};
use dc_plain::Key;
use dc_table::{Pass, Reader};

/// Rows next to one another.
#[derive(Clone, Copy)]
pub(crate) struct Lane {
    pub first: u64,
    pub len: u64,
}

impl Lane {
    /// Its first row, if it has one.
    #[inline(always)]
    pub(crate) fn head(self) -> Option<u64>
        ensures { IsHead self result }
    {
        if self.len > 0 { Some(self.first) } else { None }
    }
}

/// Knows which rows may tell of a key.
pub(crate) trait Source {
    /// Whether it takes the lock for a question.
    ghost locks: { Bool };

    /// Of which table it is.
    ghost serves: { Self → Shared → Type 0 };

    /// The rows that may tell of a key, by the key's hash.
    fn rows_of(
        &self,
        reader: Reader<'_>,
        pass: &mut Pass,
        key: Key<'_>,
        hash: u64,
    ) -> Result<Lane, NoMemory>
        requires serves { serves self.now (table_of reader) }
        requires can { CanWalk (table_of reader) pass.old }
        requires hash { hash ≡ key_hash (key_shown key) }
        ensures same { IsSamePass pass.old pass.new × IsIdle pass.new }
        ensures untried { IsUntried locks pass.old pass.new }
        ensures rests { Rests locks (view pass.old) (view pass.new) }
        ensures pins { PinsIts locks pass.old pass.new result }
        ensures rows { IfOk result (Serves locks (share pass.new).rows (key_shown key.entry)) }
        ensures refused { OnErr result (locks ≡ true) };
}

/// The rows of the key's bucket, as they are, for a walk that is brief or not. The two are types of their own
/// so that each has one loop over a path, which the compiler then puts into its one caller.
#[derive(Drop)]
pub(crate) struct Bucket<const BRIEF: bool>;

impl<const BRIEF: bool> Source for Bucket<BRIEF> {
    ghost locks = { false };

    ghost serves = { λ source table. Unit {0} };

    #[inline(always)]
    fn rows_of(
        &self,
        reader: Reader<'_>,
        _pass: &mut Pass,
        _key: Key<'_>,
        hash: u64,
    ) -> Result<Lane, NoMemory> {
        let buckets = reader.rows() / BUCKET_ROWS;
        Ok(Lane {
            first: BUCKET_ROWS * bucket_at(hash, buckets),
            len: BUCKET_ROWS,
        })
    }
}
