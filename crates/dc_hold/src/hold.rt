//! One thread's hold on a cache, for callers that have no runtime.

ghost use Rattle.std.specs.Prelude.{◌≡◌, ◌-◌, ◌^◌, ◌<◌, ◌≤◌, ◌↔◌, true, min, IfOk, IfErr, IfSome, IfNone};
ghost use Rattle.std.specs.Arc.{arc_value};
ghost use Rattle.dc_cache.specs.Answers.{Answered, Loaded, Made, Told};
ghost use Rattle.dc_cache.specs.Calls.{look, stat, readlink, list, request_of};
ghost use Rattle.dc_cache.specs.Losses.{TakesAway};
ghost use Rattle.dc_cache.specs.Pages.{asked_for, ToldPage};
ghost use Rattle.dc_cache.specs.Passes.{view, Fits, FoundHeld, IsChange, Shrinks, WalkedAndFoundHeld};
ghost use Rattle.dc_cache.specs.Whereabouts.{Locates};
ghost use Rattle.dc_names.specs.declared.limits.TheConstants.{PATH_MAX};
ghost use Rattle.dc_hold.specs.Allowed.{IsFirst, IsSplit, MayFind, MayReadFast};
ghost use Rattle.dc_hold.specs.Fitting.{fits_prop};
ghost use Rattle.dc_hold.specs.Numbers.{status_of_sizes};
ghost use Rattle.dc_hold.specs.Trails.{MayFindAlong, MayLookAlong};
ghost use Rattle.dc_table.specs.Changes.{NothingNew};

use crate::status::Status;
use dc_cache::{
    Call, ChangeFault, Entries, Entry, Fast, FastAlong, FastLink, Follow, Gone, NoMemory, NotYet,
    Pass, Sleepless, Stamped, TooFewPlaces, Whereabouts, parse,
};
use dc_names::PATH_MAX;
use std::alloc::Global;
use std::sync::Arc;
use std::sync::atomic::AtomicU64;
use std::sync::atomic::Ordering::SeqCst;

/// A cache that holds share.
#[derive(Drop)]
struct Common {
    cache: Sleepless,
    /// How often two holds were compared of which the first was of this cache.
    compared: AtomicU64,
}

/// A pass with its cache. It may go to another thread, and serves one call at a time.
#[derive(Drop)]
pub struct Hold {
    common: Arc<Common, Global>,
    pass: Pass,
    ghost fits: { Fits (arc_value common).cache pass } by { fits_prop (arc_value common).cache pass },
}

// A hold may go to another thread: this is refused if its type is not `Send`.
fn sent<T: Send>(value: T) -> T
    ensures { result ≡ value }
{
    value
}

impl Hold {
    /// A cache with its first hold, or why there is none: `BadSize` if `Sleepless::with_names` says so, else
    /// `NoMemory`.
    pub fn new(alloc: Global, buckets: u64, max_inodes: u64, max_names: u64) -> Result<Hold, Status>
        ensures first { IfOk result (λ hold. IsFirst buckets max_inodes hold.pass) }
        ensures fault { IfErr result (λ status. status ≡ status_of_sizes buckets max_inodes) }
    {
        let (cache, pass) = match Sleepless::with_names(alloc, buckets, max_inodes, max_names) {
            Ok(made) => made,
            Err(fault) => return Err(Status::of_make(fault)),
        };
        let common = Common {
            cache,
            compared: AtomicU64::new(0),
        };
        match Arc::new(alloc, common) {
            Ok(common) => Ok(sent(Hold { common, pass })),
            Err(_) => Err(Status::NoMemory),
        }
    }

    /// Another hold on the same cache, for another thread.
    pub fn split(&mut self) -> Result<Hold, NoMemory>
        ensures split { IfOk result (λ other. IsSplit self.old.pass self.new.pass other.pass) }
        ensures fault { IfErr result (λ _. self.new ≡ self.old) }
    {
        let Ok(common) = Arc::try_clone(&self.common) else {
            return Err(NoMemory);
        };
        let pass = common.cache.split(&mut self.pass);
        Ok(Hold { common, pass })
    }

    /// Whether another hold is of the same cache. If it is, the answer is always `true`. If it isn't, that is
    /// the answer only if holds of its cache are compared in another thread at the same moment.
    #[must_use]
    pub fn shares_with(&self, other: &Hold) -> bool {
        // The first number is read before this cache's number grows: else a hold of this cache would find
        // the grown one twice.
        let before = other.common.compared.load(SeqCst);
        self.common.compared.fetch_add(1, SeqCst);
        other.common.compared.load(SeqCst) != before
    }

    /// Where a path leads, by the rows alone, as `Sleepless::look_text`.
    #[must_use]
    pub fn look_fast(&mut self, base: u64, path: &[u8], follow: Follow) -> Fast
        ensures answered { MayFind base path.now follow self.old.pass self.new.pass result }
    {
        self.common
            .cache
            .look_text(&mut self.pass, base, path, follow)
    }

    /// What the rows alone tell of a `readlink`, as `Sleepless::readlink_text`.
    pub fn readlink_fast(&mut self, base: u64, path: &[u8]) -> FastLink
        ensures told { MayReadFast base path.now self.old.pass self.new.pass result }
    {
        self.common.cache.readlink_text(&mut self.pass, base, path)
    }

    /// How many rows of the cache have lost their key to another.
    #[must_use]
    pub fn evictions(&self) -> u64 {
        self.common.cache.counts().evictions
    }

    /// How many rows tell of a name or of a link's text at the moment.
    #[must_use]
    pub fn rows_in_use(&self) -> u64 {
        self.common.cache.counts().rows
    }

    /// Where a path leads, as `Sleepless::try_resolve`.
    #[must_use]
    pub fn try_resolve(
        &mut self,
        alloc: Global,
        base: u64,
        path: &[u8],
        follow: Follow,
    ) -> Option<Stamped>
        ensures answered { IfSome result
            (Answered self.old.pass self.new.pass (look base path.now follow)) }
        ensures held { IfNone result (WalkedAndFoundHeld self.old.pass self.new.pass) }
    {
        self.common
            .cache
            .try_resolve(alloc, &mut self.pass, base, path, follow)
    }

    /// Where a path leads, as `Sleepless::try_look`.
    #[must_use]
    pub fn try_look(
        &mut self,
        alloc: Global,
        base: u64,
        path: &[u8],
        follow: Follow,
    ) -> Option<Stamped>
        ensures answered { IfSome result
            (Answered self.old.pass self.new.pass (look base path.now follow)) }
        ensures held { IfNone result (FoundHeld self.old.pass self.new.pass) }
    {
        self.common
            .cache
            .try_look(alloc, &mut self.pass, base, path, follow)
    }

    /// Where a path leads by the rows alone, and its trail, as `Sleepless::look_fast_along`. A text that is no
    /// path asks in no directory: it is refused by one load, and has an empty trail.
    pub fn look_fast_along(
        &mut self,
        base: u64,
        path: &[u8],
        follow: Follow,
        trail: &mut [u64],
    ) -> FastAlong
        ensures told { MayFindAlong base path.now follow trail.old self.old.pass self.new.pass
            (result, trail.new) }
    {
        let cache = &self.common.cache;
        match parse(path) {
            Ok(text) => cache.look_fast_along(&mut self.pass, base, text, follow, trail),
            Err(_) => match cache.look_text(&mut self.pass, base, path, follow) {
                Fast::Done(refused) => FastAlong::Done(refused, 0),
                // The rows are asked for paths alone.
                Fast::Again(_) => unreachable!(),
            },
        }
    }

    /// Where a path leads, and its trail, as `Sleepless::try_resolve_along`. A text that is no path asks in no
    /// directory: it is refused by one load, without the lock, and has an empty trail.
    #[must_use]
    pub fn try_look_along(
        &mut self,
        alloc: Global,
        base: u64,
        path: &[u8],
        follow: Follow,
        trail: &mut [u64],
    ) -> Option<Result<(Stamped, usize), TooFewPlaces>>
        ensures told { MayLookAlong base path.now follow trail.old self.old.pass self.new.pass
            (result, trail.new) }
    {
        let cache = &self.common.cache;
        match parse(path) {
            Ok(text) => {
                cache.try_resolve_along(alloc, &mut self.pass, base, text, follow, trail)
            }
            Err(_) => match cache.look_text(&mut self.pass, base, path, follow) {
                Fast::Done(refused) => Some(Ok((refused, 0))),
                // The rows are asked for paths alone.
                Fast::Again(_) => unreachable!(),
            },
        }
    }

    /// Where a path leads, and how many names or entries that inode has, as `Sleepless::try_stat`.
    #[must_use]
    pub fn try_stat(&mut self, base: u64, path: &[u8]) -> Option<Stamped>
        ensures answered { IfSome result (Answered self.old.pass self.new.pass (stat base path.now)) }
        ensures held { IfNone result (FoundHeld self.old.pass self.new.pass) }
    {
        self.common.cache.try_stat(&mut self.pass, base, path)
    }

    /// The text of a symbolic link, as `Sleepless::try_readlink`.
    #[must_use]
    pub fn try_readlink(
        &mut self,
        alloc: Global,
        base: u64,
        path: &[u8],
    ) -> Option<Result<Stamped, NoMemory>>
        ensures told { IfSome result (Told self.old.pass self.new.pass (readlink base path.now)) }
        ensures held { IfNone result (FoundHeld self.old.pass self.new.pass) }
    {
        self.common
            .cache
            .try_readlink(alloc, &mut self.pass, base, path)
    }

    /// A page of the entries of a directory, as `Sleepless::try_entries`.
    #[must_use]
    pub fn try_entries(
        &mut self,
        alloc: Global,
        asked: Entries<'_>,
    ) -> Option<Result<(Stamped, Vec<Entry>), NoMemory>>
        ensures told { IfSome result (ToldPage self.old.pass self.new.pass (asked_for asked.entry)) }
        ensures held { IfNone result (FoundHeld self.old.pass self.new.pass) }
    {
        self.common.cache.try_entries(alloc, &mut self.pass, asked)
    }

    /// The names in a directory, as `Sleepless::try_list`.
    #[must_use]
    pub fn try_list(
        &mut self,
        alloc: Global,
        base: u64,
        path: &[u8],
    ) -> Option<Result<Stamped, NoMemory>>
        ensures told { IfSome result (Told self.old.pass self.new.pass (list base path.now)) }
        ensures held { IfNone result (FoundHeld self.old.pass self.new.pass) }
    {
        self.common
            .cache
            .try_list(alloc, &mut self.pass, base, path)
    }

    /// Where a directory is, as `Sleepless::try_path_of`.
    #[must_use]
    pub fn try_path_of(&mut self, number: u64, buffer: &mut [u8; PATH_MAX]) -> Option<Whereabouts>
        ensures told { IfSome result (Locates self.old.pass self.new.pass number buffer.new) }
        ensures within { IfSome result (λ told. IfOk told.start (λ start. start < PATH_MAX)) }
        ensures held { IfNone result (FoundHeld self.old.pass self.new.pass
            × (buffer.new ≡ buffer.old)) }
    {
        self.common
            .cache
            .try_path_of(&mut self.pass, number, buffer)
    }

    /// Makes a change, as `Sleepless::try_change`.
    #[must_use]
    pub fn try_change(
        &mut self,
        alloc: Global,
        call: &Call<'_>,
    ) -> Option<Result<Stamped, ChangeFault>>
        requires change { IsChange call.now }
        ensures made { IfSome result (Made self.old.pass self.new.pass (request_of call.now)) }
        ensures held { IfNone result (WalkedAndFoundHeld self.old.pass self.new.pass) }
    {
        self.common.cache.try_change(alloc, &mut self.pass, call)
    }

    /// Makes a change, and tells what its name lost, as `Sleepless::try_change_telling`.
    #[must_use]
    pub fn try_change_telling(
        &mut self,
        alloc: Global,
        call: &Call<'_>,
    ) -> Option<(Result<Stamped, ChangeFault>, Option<Gone>)>
        requires change { IsChange call.now }
        ensures made { IfSome result (λ r.
            TakesAway self.old.pass self.new.pass (request_of call.now) r.0 r.1) }
        ensures held { IfNone result (WalkedAndFoundHeld self.old.pass self.new.pass) }
    {
        self.common
            .cache
            .try_change_telling(alloc, &mut self.pass, call)
    }

    /// Empties up to this many rows, as `Sleepless::try_shrink`.
    #[must_use]
    pub fn try_shrink(&mut self, most: u64) -> Option<u64>
        ensures nothing { NothingNew (view self.old.pass) (view self.new.pass) }
        ensures rows { IfSome result (λ emptied. Shrinks most emptied self.new.pass) }
        ensures held { IfNone result (FoundHeld self.old.pass self.new.pass) }
    {
        self.common.cache.try_shrink(&mut self.pass, most)
    }

    /// Sees how many calls have altered the tree. Answers whether these are `at` at least, and how many the
    /// hold has seen.
    pub fn learn(&mut self, at: u64) -> (bool, u64)
        ensures loaded { Loaded (view self.old.pass) (view self.new.pass) }
        ensures clock { result.1 ≡ min (2 ^ 64 - 1) (view self.new.pass).book.seen }
        ensures seen { result.1 ≤ (view self.new.pass).book.seen }
        ensures come { (result.0 ≡ true) ↔ (at ≤ result.1) }
    {
        // `NotYet` alone has the number of them, so what is asked for is a point that never comes.
        let clock = match self.common.cache.learn(&mut self.pass, u64::MAX) {
            Ok(()) => u64::MAX,
            Err(NotYet(clock)) => clock,
        };
        (at <= clock, clock)
    }
}
