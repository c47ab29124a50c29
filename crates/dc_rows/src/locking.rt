//! How a guard is got, what it shows, and how it is given back.

ghost use Rattle.std.specs.Prelude.{◌≡◌, ◌<◌, true, IfOk, IfErr};
ghost use Rattle.dc_events.specs.Effects.{gave};
ghost use Rattle.dc_plain.specs.Requests.{request_of};
ghost use Rattle.dc_rows.specs.Guards.{seat_of, kept_by, IsStill};
ghost use Rattle.dc_table.specs.Holders.{answered_by, Freed, FoundHeld, Locked, TriedOnce};
ghost use Rattle.dc_table.specs.Passes.{view, share, Fits, IsIdle, CanAnswer};
ghost use Rattle.dc_table.specs.Walking.{HasNoted, IsTrueNow};

use crate::guard::Guard;
use dc_plain::Call;
use dc_store::SlabStore;
use dc_table::{Pass, Shared, Sleepers, Wakes};
use std::sync::Wait;

impl<'t> Guard<'t> {
    /// Waits for the lock, and gets it.
    #[must_use]
    pub fn lock<R: Wait>(shared: &'t Shared, rt: &R, pass: &'t mut Pass) -> Guard<'t>
        requires pass { Fits shared.now pass.old × IsIdle pass.old }
        ensures same_reference { result.holder.pass.ghost_name ≡ pass.entry.ghost_name }
        ensures locked { Locked pass.old result.holder (kept_by result) }
    {
        let (holder, guarded) = shared.lock::<Sleepers, R>(rt, pass);
        Guard { holder, guarded }
    }

    /// Tries once to get the lock. If another pass has it, this one comes back after a few microseconds, and
    /// never sleeps.
    #[must_use]
    pub fn try_lock(shared: &'t Shared, pass: &'t mut Pass) -> Result<Guard<'t>, &'t mut Pass>
        requires pass { Fits shared.now pass.old × IsIdle pass.old }
        ensures got { IfOk result (λ guard.
            (guard.holder.pass.ghost_name ≡ pass.entry.ghost_name) × Locked pass.old guard.holder (kept_by guard)) }
        ensures once { IfOk result (λ guard. TriedOnce pass.old (seat_of guard)) }
        ensures held { IfErr result (λ back.
            (back.ghost_name ≡ pass.entry.ghost_name) × FoundHeld pass.old back.now) }
    {
        match shared.try_lock(pass) {
            Ok((holder, guarded)) => Ok(Guard { holder, guarded }),
            Err(pass) => Err(pass),
        }
    }

    /// The tree.
    pub fn store(&self) -> &SlabStore
        ensures { result.now ≡ (kept_by self.now).store }
    {
        &self.guarded.store
    }

    /// How many calls have altered the tree.
    pub fn clock(&self) -> u64
        ensures { result ≡ (kept_by self.now).clock }
    {
        self.guarded.clock
    }

    /// Whether a row has the count still with which the pass noted it before it got the lock: as note `i`,
    /// the first being 0. Then the row is as noted, and what it tells is true of the tree.
    pub fn is_as_noted(&mut self, i: u64, row: u64, noted: u64) -> bool
        requires noted { let p = seat_of self.old in
            (row < (share p).rows) × HasNoted (view p) i row noted }
        ensures same { IsStill self.old self.new }
        ensures now { result ≡ true →
            (let p = seat_of self.old in IsTrueNow (share p).limit (view p) i) }
    {
        self.holder.is_as_noted(i, row, noted)
    }

    /// Gives the lock back, wakes a thread that waits for it, and hands the pass back.
    pub fn give<W: Wakes>(self) -> &'t mut Pass
        ensures same_reference { result.ghost_name ≡ self.entry.holder.pass.ghost_name }
        ensures freed { Freed self.entry.holder (kept_by self.entry) result.now }
        ensures view { view result.now ≡ gave (view (seat_of self.entry)) }
    {
        let Guard { holder, guarded } = self;
        holder.give::<W>(guarded)
    }

    /// Gives the lock back, answers a call that alters nothing, wakes a thread that waits for the lock, and
    /// hands the pass back.
    pub fn answer<W: Wakes>(self, call: &Call<'_>) -> &'t mut Pass
        requires unaltered { let p = seat_of self in CanAnswer (share p) (view p) (request_of call.now) }
        ensures same_reference { result.ghost_name ≡ self.entry.holder.pass.ghost_name }
        ensures freed { Freed self.entry.holder (kept_by self.entry) result.now }
        ensures view { view result.now ≡ answered_by (seat_of self.entry) (request_of call.now) }
    {
        let Guard { holder, guarded } = self;
        holder.answer::<W>(guarded, call)
    }
}
