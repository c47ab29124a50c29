//! The entries of a directory, in pages.

ghost use Rattle.std.specs.Prelude.{◌≡◌, IfNone, IfSome};
ghost use Rattle.dc_cache.specs.Holds.{KeepsRows, ReadsOnce};
ghost use Rattle.dc_cache.specs.Pages.{asked_for, PagesOne, ToldPage};
ghost use Rattle.dc_cache.specs.Passes.{known, share, Fits, FoundHeld};
ghost use Rattle.dc_rows.specs.Guards.{seat_of};
ghost use Rattle.dc_rows.specs.Outcomes.{IsBack};
ghost use Rattle.dc_table.specs.Changes.{IsTaken};
ghost use Rattle.dc_table.specs.Passes.{view};

use crate::cache::{Cache, Pass};
use crate::under_lock::answer;
use dc_names::{Name, NoMemory};
use dc_plain::{Call, Follow, Stamped};
use dc_rows::Guard;
use dc_store::Entry;
use dc_table::{Pass as Seat, Sleepers, Wakes};
use std::alloc::Global;
use std::sync::Wait;

/// Which entries are asked for.
#[derive(Clone, Copy)]
pub struct Entries<'a> {
    /// Where a relative path starts.
    pub base: u64,
    /// The path of the directory.
    pub path: &'a [u8],
    /// The name that they are behind, whether it stands there or not. All if there is none.
    pub after: Option<Name<'a>>,
    /// How many are told at most.
    pub most: usize,
}

/// Answers the look-up of a directory, and tells a page of its entries.
fn page<'t, W: Wakes>(
    guard: Guard<'t>,
    alloc: Global,
    asked: Entries<'_>,
) -> (&'t mut Seat, Result<(Stamped, Vec<Entry>), NoMemory>)
    requires taken { IsTaken (view (seat_of guard)) }
    ensures back { IsBack guard.entry result.0 }
    ensures rows { KeepsRows guard.entry result.0 }
    ensures told { PagesOne guard.entry result.0 (asked_for asked.entry) result.1 }
{
    let call = Call::Look {
        base: asked.base,
        path: asked.path,
        follow: Follow::Dir,
    };
    let store = guard.store();
    let reply = dc_ops::seek(store, &call);
    match dc_ops::page(alloc, store, &reply, asked.after, asked.most) {
        Ok(entries) => {
            let (back, stamped) = answer::<W>(guard, &call, reply);
            (back, Ok((stamped, entries)))
        }
        Err(NoMemory) => (guard.give::<W>(), Err(NoMemory)),
    }
}

impl<W: Wakes> Cache<W> {
    /// Entries of the directory that a path leads to: those behind a name, or all, at most this many, each with
    /// its number and kind, all of one moment. They come in the order of the bytes of their names. So a run of
    /// pages, each behind the last name of the one before, tells each name that stands throughout once,
    /// whatever else comes and goes meanwhile. A page with fewer than were asked for is the last. What is
    /// recorded is the look-up of the directory, with its refusal if it leads to none. `NoMemory` if memory for
    /// the entries was refused; a refusal takes none. `None` if another pass has the lock: then nothing at all
    /// has changed.
    #[must_use]
    pub fn try_entries(
        &self,
        alloc: Global,
        pass: &mut Pass,
        asked: Entries<'_>,
    ) -> Option<Result<(Stamped, Vec<Entry>), NoMemory>>
        requires pass { Fits self.now pass.old }
        ensures same { Fits self.now pass.new × (share pass.new ≡ share pass.old) }
        ensures told { IfSome result (ToldPage pass.old pass.new (asked_for asked.entry)) }
        ensures once { IfSome result (λ _. ReadsOnce (known pass.old) (known pass.new)) }
        ensures held { IfNone result (FoundHeld pass.old pass.new) }
    {
        match Guard::try_lock(&self.shared, &mut pass.seat) {
            Ok(guard) => {
                let (back, told) = page::<W>(guard, alloc, asked);
                let _seat = back;
                Some(told)
            }
            Err(_seat) => None,
        }
    }
}

impl Cache<Sleepers> {
    /// Entries of the directory that a path leads to, as `try_entries` tells them. It waits for the lock, once.
    pub fn entries<R: Wait>(
        &self,
        rt: &R,
        alloc: Global,
        pass: &mut Pass,
        asked: Entries<'_>,
    ) -> Result<(Stamped, Vec<Entry>), NoMemory>
        requires pass { Fits self.now pass.old }
        ensures same { Fits self.now pass.new × (share pass.new ≡ share pass.old) }
        ensures told { ToldPage pass.old pass.new (asked_for asked.entry) result }
        ensures once { ReadsOnce (known pass.old) (known pass.new) }
    {
        let guard = Guard::lock(&self.shared, rt, &mut pass.seat);
        let (back, told) = page::<Sleepers>(guard, alloc, asked);
        let _seat = back;
        told
    }
}
