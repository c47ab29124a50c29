//! The path of a directory, found from its number: under the lock, from the directory up to the root.

ghost use Rattle.std.specs.Prelude.{◌≡◌, ◌<◌, IfNone, IfOk, IfSome};
ghost use Rattle.dc_cache.specs.Holds.{KeepsRows, ReadsOnce};
ghost use Rattle.dc_cache.specs.Passes.{known, share, Fits, FoundHeld};
ghost use Rattle.dc_cache.specs.Whereabouts.{Locates, TellsHeld};
ghost use Rattle.dc_names.specs.declared.limits.TheConstants.{PATH_MAX};
ghost use Rattle.dc_rows.specs.Guards.{seat_of};
ghost use Rattle.dc_rows.specs.Outcomes.{IsBack};
ghost use Rattle.dc_table.specs.Changes.{IsTaken};
ghost use Rattle.dc_table.specs.Passes.{view};

use crate::ROOT;
use crate::cache::{Cache, Pass};
use crate::under_lock::{answer, seek};
use dc_names::{Kind, PATH_MAX, Refusal};
use dc_plain::{Call, Follow, Reply};
use dc_rows::Guard;
use dc_table::{Pass as Seat, Sleepers, Wakes};
use std::sync::Wait;

/// Where a directory is, at a point.
#[derive(Clone, Copy, Debug, PartialEq, Eq)]
pub struct Whereabouts {
    /// From where on its path stands in the buffer, up to the buffer's end; or why it has none.
    pub start: Result<usize, Refusal>,
    /// How many changes came before.
    pub at: u64,
}

/// Tells where a directory is, under one hold of the lock.
fn locate<'t, W: Wakes>(
    guard: Guard<'t>,
    number: u64,
    buffer: &mut [u8; PATH_MAX],
) -> (&'t mut Seat, Whereabouts)
    requires taken { IsTaken (view (seat_of guard)) }
    ensures back { IsBack guard.entry result.0 }
    ensures rows { KeepsRows guard.entry result.0 }
    ensures told { TellsHeld guard.entry result.0 number buffer.new result.1 }
    ensures within { IfOk result.1.start (λ start. start < PATH_MAX) }
{
    match dc_ops::path_of(guard.store(), number, buffer) {
        Ok(start) => {
            let call = Call::Look {
                base: ROOT,
                path: &buffer[start..],
                follow: Follow::No,
            };
            let (back, found) = answer::<W>(guard, &call, Reply::Found(number, Kind::Dir));
            let start = Ok(start);
            (
                back,
                Whereabouts {
                    start,
                    at: found.at,
                },
            )
        }
        Err(refusal) => {
            let call = Call::Look {
                base: number,
                path: b".",
                follow: Follow::Dir,
            };
            let (back, sought) = seek::<W>(guard, &call);
            let start = Err(refusal);
            (
                back,
                Whereabouts {
                    start,
                    at: sought.at,
                },
            )
        }
    }
}

impl<W: Wakes> Cache<W> {
    /// Where the directory of a number is: its path from the root, by names alone, which stands at the end of
    /// the buffer then. `NotFound` if no directory lives under the number, also if a file or a link does;
    /// `NameTooLong` if the path has more than `PATH_MAX` bytes. In each directory on the way the names are
    /// looked at one after another, up to the one that leads on, while nobody else has the lock. It takes no
    /// memory. `None` if another pass has the lock: then nothing at all has changed.
    ///
    /// What is recorded is a look-up of the path, which finds the directory, or of the dot of a number that
    /// has no path.
    #[must_use]
    pub fn try_path_of(
        &self,
        pass: &mut Pass,
        number: u64,
        buffer: &mut [u8; PATH_MAX],
    ) -> Option<Whereabouts>
        requires pass { Fits self.now pass.old }
        ensures same { Fits self.now pass.new × (share pass.new ≡ share pass.old) }
        ensures told { IfSome result (Locates pass.old pass.new number buffer.new) }
        ensures within { IfSome result (λ told. IfOk told.start (λ start. start < PATH_MAX)) }
        ensures once { IfSome result (λ _. ReadsOnce (known pass.old) (known pass.new)) }
        ensures held { IfNone result (FoundHeld pass.old pass.new × (buffer.new ≡ buffer.old)) }
    {
        match Guard::try_lock(&self.shared, &mut pass.seat) {
            Ok(guard) => {
                let (back, told) = locate::<W>(guard, number, buffer);
                // For the proof, here and below: the seat is back as it is bound.
                let _seat = back;
                Some(told)
            }
            Err(_seat) => None,
        }
    }
}

impl Cache<Sleepers> {
    /// Where the directory of a number is, as `try_path_of` tells it. It waits for the lock, and takes no
    /// memory.
    pub fn path_of<R: Wait>(
        &self,
        rt: &R,
        pass: &mut Pass,
        number: u64,
        buffer: &mut [u8; PATH_MAX],
    ) -> Whereabouts
        requires pass { Fits self.now pass.old }
        ensures same { Fits self.now pass.new × (share pass.new ≡ share pass.old) }
        ensures told { Locates pass.old pass.new number buffer.new result }
        ensures within { IfOk result.start (λ start. start < PATH_MAX) }
        ensures once { ReadsOnce (known pass.old) (known pass.new) }
    {
        let guard = Guard::lock(&self.shared, rt, &mut pass.seat);
        let (back, told) = locate::<Sleepers>(guard, number, buffer);
        let _seat = back;
        told
    }
}
