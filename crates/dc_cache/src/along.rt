//! A look-up that tells what it passed through.

ghost use Rattle.std.specs.Prelude.{◌≡◌, ℕ, length, IfOk, OnErr, IfSome, IfNone};
ghost use Rattle.dc_cache.specs.Holds.{KeepsPins, KeepsRows, ReadsOnce};
ghost use Rattle.dc_cache.specs.Passes.{known, share, Fits, FoundHeld, WalkedAndFoundHeld};
ghost use Rattle.dc_cache.specs.Trails.{FindsAlong, LooksAlong, TellsAlong, ToldAlongTo};
ghost use Rattle.dc_ops.specs.Plans.{Declines};
ghost use Rattle.dc_plain.specs.FactLaws.{outcome_answer};
ghost use Rattle.dc_plain.specs.Requests.{answer_of};
ghost use Rattle.dc_plain.specs.Trees.{told_of};
ghost use Rattle.dc_resolve.specs.Ends.{outcome_shown};
ghost use Rattle.dc_rows.specs.Guards.{rows_of, seat_of};
ghost use Rattle.dc_rows.specs.Outcomes.{IsBack};
ghost use Rattle.dc_table.specs.Changes.{IsTaken};
ghost use Rattle.dc_table.specs.Passes as seats;
ghost use Rattle.dc_table.specs.Shares.{HasNotTried};
ghost use Rattle.dc_trail.specs.Keeping.{HasLongerTrail};
ghost use Rattle.dc_trail.specs.Places.{HasTrail};
ghost use Rattle.dc_walk.specs.Looks.{look_shown};

use crate::cache::{Cache, Pass};
use crate::filler::{Filler, NoRoom};
use crate::under_lock::answer;
use dc_names::PathText;
use dc_ops::StoreFinder;
use dc_plain::{Follow, Reply, Stamped, alters_tells_whether_trees_differ};
use dc_resolve::Walked;
use dc_rows::Guard;
use dc_store::SlabStore;
use dc_table::{Pass as Seat, Sleepers, Wakes};
use dc_trail::{Halt, walk_along};
use dc_walk::{FastAlong, walk_fast_along};
use std::alloc::Global;
use std::sync::Wait;

/// A trail has more directories than there are places for it.
#[derive(Clone, Copy, Debug, PartialEq, Eq)]
pub struct TooFewPlaces;

/// The reply of a walk that came to an end.
fn reply_of(end: Walked) -> Reply
    ensures { answer_of result ≡ outcome_answer (outcome_shown end) }
{
    match end {
        Walked::Found((number, kind)) => Reply::Found(number, kind),
        Walked::Refused(refusal) => Reply::Refused(refusal.number()),
    }
}

/// Answers a look-up by the tree, and writes its trail into places. It takes no memory.
fn look_in(
    store: &SlabStore,
    look: dc_walk::Look<'_>,
    trail: &mut [u64],
) -> Result<(Reply, usize), TooFewPlaces>
    ensures places { length trail.new ≡ length trail.old }
    ensures reply { IfOk result (λ r. (limit : ℕ) →
        Declines limit store.now (look_shown look.entry) (answer_of r.0)) }
    ensures trail { IfOk result (λ r. HasTrail store.now look.entry.base look.entry.path.bytes.now
        look.entry.follow trail.new r.1) }
    ensures full { OnErr result (HasLongerTrail (told_of store.now) look.entry.base
        look.entry.path.bytes.now look.entry.follow (length trail.new)) }
{
    alters_tells_whether_trees_differ();
    let mut finder = StoreFinder { store };
    let told = walk_along(&mut finder, look.base, look.path, look.follow, trail);
    // A finder has no `Drop`, so it can't be let go, but is taken apart.
    let StoreFinder { store: _ } = finder;
    match told {
        Ok((end, many)) => Ok((reply_of(end), many)),
        Err(Halt::Full) => Err(TooFewPlaces),
        // A store answers each question.
        Err(Halt::Finder(_)) => unreachable!(),
    }
}

/// Answers a look-up under the lock, and tells its trail.
fn look_held<'t, W: Wakes>(
    guard: Guard<'t>,
    look: dc_walk::Look<'_>,
    trail: &mut [u64],
) -> (&'t mut Seat, Result<(Stamped, usize), TooFewPlaces>)
    requires taken { IsTaken (seats.view (seat_of guard)) }
    ensures back { IsBack guard.entry result.0 }
    ensures rows { KeepsRows guard.entry result.0 }
    ensures places { length trail.new ≡ length trail.old }
    ensures told { ToldAlongTo (seats.share (seat_of guard.entry)).limit (rows_of guard.entry).history
        (seats.view (seat_of guard.entry)) (seats.view result.0.now) look.entry.base
        look.entry.path.bytes.now look.entry.follow trail.new result.1 }
{
    let call = look.call();
    match look_in(guard.store(), look, trail) {
        Ok((reply, many)) => {
            let (back, found) = answer::<W>(guard, &call, reply);
            (back, Ok((found, many)))
        }
        Err(TooFewPlaces) => (guard.give::<W>(), Err(TooFewPlaces)),
    }
}

/// Answers a look-up under the lock, tells its trail, and fills the rows of the keys that it asks for, as far
/// as they can be had.
fn fill_along<'t, W: Wakes>(
    guard: Guard<'t>,
    alloc: Global,
    look: dc_walk::Look<'_>,
    trail: &mut [u64],
) -> (&'t mut Seat, Result<(Stamped, usize), TooFewPlaces>)
    requires taken { IsTaken (seats.view (seat_of guard)) }
    ensures back { IsBack guard.entry result.0 }
    ensures pins { KeepsPins guard.entry result.0 }
    ensures places { length trail.new ≡ length trail.old }
    ensures told { ToldAlongTo (seats.share (seat_of guard.entry)).limit (rows_of guard.entry).history
        (seats.view (seat_of guard.entry)) (seats.view result.0.now) look.entry.base
        look.entry.path.bytes.now look.entry.follow trail.new result.1 }
{
    alters_tells_whether_trees_differ();
    let mut filler = Filler {
        guard,
        alloc,
        known: None,
        next: 0,
    };
    let told = walk_along(&mut filler, look.base, look.path, look.follow, trail);
    let Filler {
        guard,
        alloc: _,
        known: _,
        next: _,
    } = filler;
    let call = look.call();
    match told {
        Ok((end, many)) => {
            let (back, found) = answer::<W>(guard, &call, reply_of(end));
            (back, Ok((found, many)))
        }
        Err(Halt::Full) => (guard.give::<W>(), Err(TooFewPlaces)),
        // The tree knows where a text leads that no row has room for.
        Err(Halt::Finder(NoRoom)) => look_held::<W>(guard, look, trail),
    }
}

impl<W: Wakes> Cache<W> {
    /// Where a path leads by the rows alone, as `look_fast`, and its trail, as `try_look_along` tells it, on
    /// the tree of the answer's point. It takes no lock and no memory, never waits, and makes at most
    /// `MOST_LOADS` loads. `Again` says why the rows don't answer. `TooFewPlaces` if the trail, by the rows
    /// that were read, has more directories than there are places. After either nothing is recorded, and
    /// what stands in the places tells nothing.
    pub fn look_fast_along(
        &self,
        pass: &mut Pass,
        base: u64,
        path: PathText<'_>,
        follow: Follow,
        trail: &mut [u64],
    ) -> FastAlong
        requires pass { Fits self.now pass.old }
        ensures same { Fits self.now pass.new × (share pass.new ≡ share pass.old) }
        ensures untried { HasNotTried (known pass.old) (known pass.new) }
        ensures places { length trail.new ≡ length trail.old }
        ensures told { FindsAlong pass.old pass.new base path.entry.bytes.now follow trail.new result }
    {
        let look = dc_walk::Look { base, path, follow };
        walk_fast_along(
            self.shared.reader(),
            &mut pass.seat,
            &mut pass.room,
            look,
            trail,
        )
    }

    /// Where a path leads by the tree, as `try_look`, and its trail: each directory in which the path's
    /// resolution asks for a name or for dot-dot on the tree of the answer's point, up to where it ends,
    /// once, in the order in which it asks there first. A caller who keeps modes by number tests search
    /// permission in each of them before it tells the answer: what the test refuses comes before what the
    /// tree refuses. It is written into the caller's places, and the number says how many it takes. A
    /// relative path asks its starting directory first, whether that lives; a dot asks nothing, nor does
    /// the root's dot-dot.
    ///
    /// `TooFewPlaces` if the trail has more directories than there are places: then nothing is recorded.
    /// It takes no memory and fills no row. `None` if another pass has the lock: then nothing at all has
    /// changed.
    #[must_use]
    pub fn try_look_along(
        &self,
        pass: &mut Pass,
        base: u64,
        path: PathText<'_>,
        follow: Follow,
        trail: &mut [u64],
    ) -> Option<Result<(Stamped, usize), TooFewPlaces>>
        requires pass { Fits self.now pass.old }
        ensures same { Fits self.now pass.new × (share pass.new ≡ share pass.old) }
        ensures places { length trail.new ≡ length trail.old }
        ensures told { IfSome result (TellsAlong pass.old pass.new base path.entry.bytes.now follow trail.new) }
        ensures once { IfSome result (λ _. ReadsOnce (known pass.old) (known pass.new)) }
        ensures held { IfNone result (FoundHeld pass.old pass.new × (trail.new ≡ trail.old)) }
    {
        let look = dc_walk::Look { base, path, follow };
        match Guard::try_lock(&self.shared, &mut pass.seat) {
            Ok(guard) => {
                let (back, told) = look_held::<W>(guard, look, trail);
                // For the proof: the seat is back as it is bound.
                let _seat = back;
                Some(told)
            }
            Err(_seat) => None,
        }
    }

    /// Where a path leads, in one call, and its trail, as `try_look_along` tells it. If the rows don't
    /// answer, it tries for the lock once, asks the tree under it, and fills the rows of the path under the
    /// same hold, as far as memory for them can be had. `TooFewPlaces` if the trail has more directories
    /// than there are places: then nothing is recorded. `None` if the rows don't answer and another pass has
    /// the lock: then nothing is recorded.
    #[must_use]
    pub fn try_resolve_along(
        &self,
        alloc: Global,
        pass: &mut Pass,
        base: u64,
        path: PathText<'_>,
        follow: Follow,
        trail: &mut [u64],
    ) -> Option<Result<(Stamped, usize), TooFewPlaces>>
        requires pass { Fits self.now pass.old }
        ensures same { Fits self.now pass.new × (share pass.new ≡ share pass.old) }
        ensures places { length trail.new ≡ length trail.old }
        ensures told { IfSome result (LooksAlong pass.old pass.new base path.entry.bytes.now follow trail.new) }
        ensures held { IfNone result (WalkedAndFoundHeld pass.old pass.new) }
    {
        if let FastAlong::Done(stamped, many) = self.look_fast_along(
            pass, base, path, follow, trail,
        ) {
            return Some(Ok((stamped, many)));
        }
        let look = dc_walk::Look { base, path, follow };
        match Guard::try_lock(&self.shared, &mut pass.seat) {
            Ok(guard) => {
                let (back, told) = fill_along::<W>(guard, alloc, look, trail);
                let _seat = back;
                Some(told)
            }
            Err(_seat) => None,
        }
    }
}

impl Cache<Sleepers> {
    /// Where a path leads, always answered if there are places enough, and its trail, as `try_look_along`
    /// tells it. If the rows don't answer, it waits for the lock, once however long the path is: it asks the
    /// tree then, and fills the rows of the path under the same hold, as far as memory for them can be had.
    /// `TooFewPlaces` if the trail has more directories than there are places: then nothing is recorded.
    pub fn resolve_along<R: Wait>(
        &self,
        rt: &R,
        alloc: Global,
        pass: &mut Pass,
        base: u64,
        path: PathText<'_>,
        follow: Follow,
        trail: &mut [u64],
    ) -> Result<(Stamped, usize), TooFewPlaces>
        requires pass { Fits self.now pass.old }
        ensures same { Fits self.now pass.new × (share pass.new ≡ share pass.old) }
        ensures places { length trail.new ≡ length trail.old }
        ensures told { LooksAlong pass.old pass.new base path.entry.bytes.now follow trail.new result }
    {
        if let FastAlong::Done(stamped, many) = self.look_fast_along(
            pass, base, path, follow, trail,
        ) {
            return Ok((stamped, many));
        }
        let look = dc_walk::Look { base, path, follow };
        let guard = Guard::lock(&self.shared, rt, &mut pass.seat);
        let (back, told) = fill_along::<Sleepers>(guard, alloc, look, trail);
        let _seat = back;
        told
    }
}
