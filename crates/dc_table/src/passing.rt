//! How a table begins and ends, and how passes are cut and put together.

ghost use Rattle.std.specs.Prelude.{◌≡◌, ◌*◌, ◌/◌, ◌≤◌, ◌↔◌, false, Err, IfOk, IfSome, IsSome};
ghost use Rattle.dc_names.specs.Sizes.{are_right};
ghost use Rattle.dc_names.specs.Tables.{fit_a_table};
ghost use Rattle.dc_names.specs.declared.limits.TheConstants.{MOST_TABLE_BUCKETS};
ghost use Rattle.dc_names.specs.declared.sizes.MakeFault.TheVariants.{BadSize};
ghost use Rattle.dc_table.specs.Ends.{Ends};
ghost use Rattle.dc_table.specs.Kept.{IsNew};
ghost use Rattle.dc_table.specs.Passes.{known, share, Fits, IsIdle};
ghost use Rattle.dc_table.specs.Shares.{IsWhole, first_known, kept_half, new_half, both};

use crate::late::Late;
use crate::plays::Halves;
use crate::shared::{Counts, Shared};
use crate::table::{Guarded, Limits, Pass};
use crate::{FIRST_ROW, FREE, LOCK};
use atomic_table::{Refused, Table};
use dc_events::{new_tables_have_the_rule, passes_keep_the_rule, records_are_legal};
use dc_index::Index;
use dc_names::{BUCKET_ROWS, MakeFault, NoMemory, are_right, fit_a_table};
use dc_row::{ROW_WORDS, empty_row_spells_nothing};
use dc_shrink::Shrinker;
use dc_store::SlabStore;
use std::alloc::Global;
use std::sync::atomic::AtomicU64;
use std::sync::atomic::Ordering::Relaxed;

impl Guarded {
    /// The root directory alone, and no row with a key.
    fn new(
        alloc: Global,
        buckets: u64,
        max_inodes: u64,
        max_names: u64,
    ) -> Result<Guarded, NoMemory>
        requires { (1 ≤ buckets) × (buckets ≤ MOST_TABLE_BUCKETS) }
        ensures { IfOk result (λ guarded. IsNew guarded (BUCKET_ROWS * buckets) max_inodes) }
    {
        Ok(Guarded {
            store: SlabStore::with_entries(alloc, max_names)?,
            index: Index::new(alloc, buckets)?,
            shrinker: Shrinker::new(alloc, BUCKET_ROWS * buckets)?,
            clock: 0,
            max_inodes,
        })
    }
}

impl Shared {
    /// A table with four empty rows in each bucket, over the root directory alone, and its first pass,
    /// which has done and seen nothing. `BadSize` if buckets are no power of two from 1 to 1,024, or
    /// the limit of live inodes, the root among them, isn't from 1 to 1,048,576.
    pub fn new(alloc: Global, buckets: u64, max_inodes: u64) -> Result<(Shared, Pass), MakeFault>
        ensures made { IfOk result (λ r. Fits r.0 r.1 × IsIdle r.1) }
        ensures first { IfOk result (λ r. known r.1 ≡ first_known max_inodes (BUCKET_ROWS * buckets)) }
        ensures size { (result ≡ Err BadSize) ↔ (are_right buckets max_inodes ≡ false) }
    {
        if !are_right(buckets, max_inodes) {
            return Err(MakeFault::BadSize);
        }
        Shared::with_names(alloc, buckets, max_inodes, u64::MAX)
    }

    /// A table as `new` makes it, with as many buckets as the work wants, any power of two from 1 to
    /// 4,194,304, and as many inodes, from 1 to 4,294,967,296. A change that would make more than
    /// `max_names` names, in all directories together, finds no memory.
    pub fn with_names(
        alloc: Global,
        buckets: u64,
        max_inodes: u64,
        max_names: u64,
    ) -> Result<(Shared, Pass), MakeFault>
        ensures made { IfOk result (λ r. Fits r.0 r.1 × IsIdle r.1) }
        ensures first { IfOk result (λ r. known r.1 ≡ first_known max_inodes (BUCKET_ROWS * buckets)) }
        ensures size { (result ≡ Err BadSize) ↔ (fit_a_table buckets max_inodes ≡ false) }
    {
        if !fit_a_table(buckets, max_inodes) {
            return Err(MakeFault::BadSize);
        }
        let limits = Limits {
            max_inodes,
            rows: BUCKET_ROWS * buckets,
        };
        Ok(Shared::of(alloc, buckets, max_names, &limits)?)
    }

    fn of(
        alloc: Global,
        buckets: u64,
        max_names: u64,
        limits: &Limits,
    ) -> Result<(Shared, Pass), NoMemory>
        requires buckets { (1 ≤ buckets) × (buckets ≤ MOST_TABLE_BUCKETS) }
        requires rows { limits.now.rows ≡ BUCKET_ROWS * buckets }
        ensures made { IfOk result (λ r. Fits r.0 r.1 × IsIdle r.1) }
        ensures first { IfOk result (λ r.
            known r.1 ≡ first_known limits.now.max_inodes (BUCKET_ROWS * buckets)) }
    {
        new_tables_have_the_rule();
        empty_row_spells_nothing();
        let value = Guarded::new(alloc, buckets, limits.max_inodes, max_names)?;
        let guarded = Box::new(alloc, value)?;
        let words = vec![in alloc; 0; FIRST_ROW + limits.rows as usize * ROW_WORDS]?;
        let mut slots = Vec::with_capacity(alloc, 1)?;
        slots.push_reserved(Some(guarded));
        match Table::new(alloc, words.as_slice(), slots, limits) {
            Ok((table, pass)) => Ok((
                Shared {
                    table,
                    limits: *limits,
                    waiting: AtomicU64::new(0),
                    late: Late::new(),
                    sleeps: AtomicU64::new(0),
                    evictions: AtomicU64::new(0),
                    rows_in_use: AtomicU64::new(0),
                },
                pass,
            )),
            Err(Refused { slots: _ }) => Err(NoMemory),
        }
    }

    /// How many rows the table has.
    pub fn rows(&self) -> u64
        ensures { result ≡ self.now.limits.rows }
    {
        self.limits.rows
    }

    /// How many buckets of four rows the table has.
    pub fn buckets(&self) -> u64
        ensures { result ≡ self.now.limits.rows / BUCKET_ROWS }
    {
        self.limits.rows / BUCKET_ROWS
    }

    /// What the table has counted so far.
    pub fn counts(&self) -> Counts {
        Counts {
            evictions: self.evictions.load(Relaxed),
            rows: self.rows_in_use.load(Relaxed),
            sleeps: self.sleeps.load(Relaxed),
        }
    }

    /// A pass for another thread, which has seen what this one has. It gets half of the share.
    #[must_use]
    pub fn split(&self, pass: &mut Pass) -> Pass
        requires pass { Fits self.now pass.old × IsIdle pass.old }
        ensures same { Fits self.now pass.new × IsIdle pass.new × (pass.new.id ≡ pass.old.id) }
        ensures kept { known pass.new ≡ kept_half (known pass.old) }
        ensures new { Fits self.now result × IsIdle result × (known result ≡ new_half (known pass.old)) }
    {
        passes_keep_the_rule();
        self.table.shared.split_seat::<Halves>(pass)
    }

    /// Takes in what another pass did and saw, and its share.
    pub fn join(&self, pass: &mut Pass, other: Pass)
        requires pass { Fits self.now pass.old × IsIdle pass.old }
        requires other { Fits self.now other × IsIdle other }
        ensures same { Fits self.now pass.new × IsIdle pass.new × (pass.new.id ≡ pass.old.id) }
        ensures both { known pass.new ≡ both (known pass.old) (known other) }
    {
        passes_keep_the_rule();
        self.table.shared.join_seat::<Halves>(pass, other);
    }

    /// Ends the table: the tree, and how many calls altered it, are those of a history in which the
    /// records of the pass stand. `None` if another pass has the lock and so the tree; never if
    /// this one has the whole share.
    #[must_use]
    pub fn close(self, pass: Pass) -> Option<Guarded>
        requires pass { Fits self pass × IsIdle pass }
        ensures tree { IfSome result (λ x. Ends (share pass).limit (known pass) x.store x.clock) }
        ensures whole { IsWhole (share pass) → IsSome result }
    {
        records_are_legal();
        let Shared {
            table,
            limits: _,
            waiting: _,
            late: _,
            sleeps: _,
            evictions: _,
            rows_in_use: _,
        } = self;
        let mut closed = table.close_with(pass);
        let lock = closed.word(LOCK);
        let guarded = closed.take(0);
        closed.free();
        if lock != FREE {
            return None;
        }
        match guarded {
            Some(guarded) => Some(Box::into_inner(guarded)),
            None => None,
        }
    }
}
