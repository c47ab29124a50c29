//! Making and closing a cache, splitting and joining its passes, and learning how far the tree has come.

ghost use Rattle.std.specs.Prelude.{◌≡◌, ◌*◌, ◌≤◌, ◌↔◌, false, Err, IsOk, IfOk, IfErr, IfSome, IsSome};
ghost use Rattle.dc_cache.specs.Answers.{Loaded};
ghost use Rattle.dc_cache.specs.Passes.{known, view, share, Fits};
ghost use Rattle.dc_names.specs.Sizes.{are_right};
ghost use Rattle.dc_names.specs.Tables.{fit_a_table};
ghost use Rattle.dc_names.specs.declared.limits.TheConstants.{BUCKET_ROWS};
ghost use Rattle.dc_names.specs.declared.sizes.MakeFault.TheVariants.{BadSize};
ghost use Rattle.dc_table.specs.Changes.{NothingNew};
ghost use Rattle.dc_table.specs.Ends.{Ends};
ghost use Rattle.dc_table.specs.Shares.{IsWhole, first_known, kept_half, new_half, both};

use crate::cache::{Cache, Ended, NotYet, Pass};
use dc_table::{Counts, MakeFault, Pass as Seat, Shared, Wakes};
use dc_walk::Room;
use std::alloc::Global;
use std::marker::PhantomData;

impl<W: Wakes> Cache<W> {
    /// A cache with four rows in each bucket, over a tree that has the root directory alone, and its first
    /// pass, which has done and seen nothing. `BadSize` if `buckets` is no power of two from 1 to 1,024, or
    /// `max_inodes`, how many inodes may live at once, the root among them, isn't from 1 to 1,048,576.
    pub fn new(alloc: Global, buckets: u64, max_inodes: u64) -> Result<(Cache<W>, Pass), MakeFault>
        ensures made { IfOk result (λ r. Fits r.0 r.1
            × (known r.1 ≡ first_known max_inodes (BUCKET_ROWS * buckets))) }
        ensures size { (result ≡ Err BadSize) ↔ (are_right buckets max_inodes ≡ false) }
    {
        let (shared, seat) = Shared::new(alloc, buckets, max_inodes)?;
        Ok(Cache::over(shared, seat))
    }

    /// A cache as `new` makes it, with rows for as many names as the work looks up: `buckets` may be any
    /// power of two from 1 to 4,194,304, and `max_inodes` from 1 to 4,294,967,296. As a name stands in one
    /// of four rows, some 4 look-ups in 100 miss if there are twice as many rows as names, and 4 in 1,000
    /// if there are four times as many. A row takes 387 bytes, and 31 more once it is filled; with a name
    /// of 32 bytes or more it takes some 45 more and those of the name. An inode takes memory when it is
    /// made. There may be twice as many names as inodes, as `with_names` says.
    pub fn with_buckets(
        alloc: Global,
        buckets: u64,
        max_inodes: u64,
    ) -> Result<(Cache<W>, Pass), MakeFault>
        ensures made { IfOk result (λ r. Fits r.0 r.1
            × (known r.1 ≡ first_known max_inodes (BUCKET_ROWS * buckets))) }
        ensures size { (result ≡ Err BadSize) ↔ (fit_a_table buckets max_inodes ≡ false) }
    {
        Cache::with_names(alloc, buckets, max_inodes, max_inodes.saturating_mul(2))
    }

    /// A cache as `with_buckets` makes it, with at most `max_names` names in all directories together: a
    /// make or a link past that finds no memory. An inode may have 65,000 names, so a limit of inodes alone
    /// bounds no memory. `new` sets no limit of names.
    pub fn with_names(
        alloc: Global,
        buckets: u64,
        max_inodes: u64,
        max_names: u64,
    ) -> Result<(Cache<W>, Pass), MakeFault>
        ensures made { IfOk result (λ r. Fits r.0 r.1
            × (known r.1 ≡ first_known max_inodes (BUCKET_ROWS * buckets))) }
        ensures size { (result ≡ Err BadSize) ↔ (fit_a_table buckets max_inodes ≡ false) }
    {
        let (shared, seat) = Shared::with_names(alloc, buckets, max_inodes, max_names)?;
        Ok(Cache::over(shared, seat))
    }

    /// The cache of a table, and a pass with this seat at it.
    fn over(shared: Shared, seat: Seat) -> (Cache<W>, Pass)
        ensures shared { result.0.shared ≡ shared }
        ensures seat { result.1.seat ≡ seat }
    {
        let cache = Cache {
            shared,
            wakes: PhantomData,
        };
        let room = Room::new();
        (cache, Pass { seat, room })
    }

    /// What the cache has counted so far. The `sleeps` of a `Sleepless` are 0.
    #[must_use]
    pub fn counts(&self) -> Counts {
        self.shared.counts()
    }

    /// A pass for another thread, which has seen what this one has. It gets half of the share.
    #[must_use]
    pub fn split(&self, pass: &mut Pass) -> Pass
        requires pass { Fits self.now pass.old }
        ensures kept { Fits self.now pass.new × (known pass.new ≡ kept_half (known pass.old)) }
        ensures new { Fits self.now result × (known result ≡ new_half (known pass.old)) }
    {
        Pass {
            seat: self.shared.split(&mut pass.seat),
            room: Room::new(),
        }
    }

    /// Takes in what another pass did and saw, and its share.
    pub fn join(&self, pass: &mut Pass, other: Pass)
        requires pass { Fits self.now pass.old }
        requires other { Fits self.now other }
        ensures pass { Fits self.now pass.new }
        ensures both { known pass.new ≡ both (known pass.old) (known other) }
    {
        let Pass { seat, room: _ } = other;
        self.shared.join(&mut pass.seat, seat);
    }

    /// Sees how many calls have altered the tree, and whether these are at least `at`: `NotYet`, with how
    /// many they are, if they are fewer. What a pass has seen is past for it: none of its later calls takes
    /// effect before that.
    pub fn learn(&self, pass: &mut Pass, at: u64) -> Result<(), NotYet>
        requires pass { Fits self.now pass.old }
        ensures same { Fits self.now pass.new × (share pass.new ≡ share pass.old) }
        ensures nothing { NothingNew (view pass.old) (view pass.new) }
        ensures loaded { Loaded (view pass.old) (view pass.new) }
        ensures come { IsOk result ↔ (at ≤ (view pass.new).book.seen) }
        ensures not_yet { IfErr result (λ e. e.0 ≡ (view pass.new).book.seen) }
    {
        let clock = self.shared.learn(&mut pass.seat);
        if clock < at {
            return Err(NotYet(clock));
        }
        Ok(())
    }

    /// Ends the cache: the tree, and how many calls altered it, are those of a history in which the
    /// records of the pass stand. `None` if another pass has the lock and so the tree, which is then
    /// lost; never if this one has the whole share.
    #[must_use]
    pub fn close(self, pass: Pass) -> Option<Ended>
        requires pass { Fits self pass }
        ensures tree { IfSome result (λ ended.
            Ends (share pass).limit (known pass) ended.store ended.clock) }
        ensures whole { IsWhole (share pass) → IsSome result }
    {
        let Cache { shared, wakes: _ } = self;
        let Pass { seat, room: _ } = pass;
        let value = shared.close(seat)?;
        Some(Ended {
            store: value.store,
            clock: value.clock,
        })
    }
}
