//! What is done under one hold of the lock: a guard comes in, and the pass is handed back, without the lock.

ghost use Rattle.std.specs.Prelude.{◌≡◌, ℕ, IfSome, IfNone};
ghost use Rattle.dc_cache.specs.Holds.{FillsOnce, KeepsPins, KeepsRows, Records, RecordsOne, TellsOne};
ghost use Rattle.dc_cache.specs.Losses.{MakesOnce};
ghost use Rattle.dc_cache.specs.Passes.{TriedAfterWalk};
ghost use Rattle.dc_ops.specs.Asked.{IsChange, IsSought, IsToldAtLength};
ghost use Rattle.dc_ops.specs.Settled.{DeclinesCall};
ghost use Rattle.dc_plain.specs.Requests.{request_of};
ghost use Rattle.dc_rows.specs.Guards.{seat_of, kept_by};
ghost use Rattle.dc_rows.specs.Outcomes.{IsBack};
ghost use Rattle.dc_table.specs.Changes.{IsTaken};
ghost use Rattle.dc_table.specs.Passes.{known, view, share, IsIdle, IsSamePass};
ghost use Rattle.dc_table.specs.Shares.{tried};
ghost use Rattle.dc_walk.specs.Findings.{CanWalk};
ghost use Rattle.dc_walk.specs.Looks.{look_shown};
ghost use Rattle.dc_walk.specs.Placing.{AreNoted};

use crate::filler::{Filler, NoRoom};
use crate::gone::{Gone, going};
use dc_names::NoMemory;
use dc_ops::look_by;
use dc_plain::{Call, Reply, Stamped};
use dc_rows::{ChangeFault, Guard};
use dc_table::{Pass as Seat, Shared, Sleepers, Wakes};
use dc_walk::{Room, are_as_noted, find_front, still_known};
use std::alloc::Global;
use std::sync::Wait;

/// Answers a call that alters nothing, whose reply is known.
pub(crate) fn answer<'t, W: Wakes>(
    guard: Guard<'t>,
    call: &Call<'_>,
    reply: Reply,
) -> (&'t mut Seat, Stamped)
    requires taken { IsTaken (view (seat_of guard)) }
    requires declines { (limit : ℕ) → DeclinesCall limit (kept_by guard).store call.now reply }
    ensures back { IsBack guard.entry result.0 }
    ensures rows { KeepsRows guard.entry result.0 }
    ensures recorded { RecordsOne guard.entry result.0 (request_of call.now) result.1 }
    ensures same { result.1.reply ≡ reply }
{
    let at = guard.clock();
    (guard.answer::<W>(call), Stamped { reply, at })
}

/// Answers a `Look` or a `Stat`.
pub(crate) fn seek<'t, W: Wakes>(guard: Guard<'t>, call: &Call<'_>) -> (&'t mut Seat, Stamped)
    requires taken { IsTaken (view (seat_of guard)) }
    requires call { IsSought call.now }
    ensures back { IsBack guard.entry result.0 }
    ensures rows { KeepsRows guard.entry result.0 }
    ensures recorded { RecordsOne guard.entry result.0 (request_of call.now) result.1 }
{
    let reply = dc_ops::seek(guard.store(), call);
    answer::<W>(guard, call, reply)
}

/// Answers a `Readlink` or a `List`.
pub(crate) fn ask<'t, W: Wakes>(
    guard: Guard<'t>,
    alloc: Global,
    call: &Call<'_>,
) -> (&'t mut Seat, Result<Stamped, NoMemory>)
    requires taken { IsTaken (view (seat_of guard)) }
    requires call { IsToldAtLength call.now }
    ensures back { IsBack guard.entry result.0 }
    ensures rows { KeepsRows guard.entry result.0 }
    ensures told { TellsOne guard.entry result.0 (request_of call.now) result.1 }
{
    let at = guard.clock();
    match dc_ops::ask(alloc, guard.store(), call) {
        Ok(reply) => (guard.answer::<W>(call), Ok(Stamped { reply, at })),
        Err(NoMemory) => (guard.give::<W>(), Err(NoMemory)),
    }
}

/// Answers a look-up of a path, and fills the rows of the keys that it asks the tree for, as far as they
/// can be had. If a walk by rows has just given up, `noted` is its room: the rows in it answer again if none
/// of them has changed.
pub(crate) fn look_up<'t, W: Wakes>(
    mut guard: Guard<'t>,
    alloc: Global,
    noted: Option<&'t Room>,
    look: dc_walk::Look<'_>,
) -> (&'t mut Seat, Stamped)
    requires taken { IsTaken (view (seat_of guard)) }
    requires noted { IfSome noted (λ room.
        let p = seat_of guard in AreNoted (view p) (share p).rows room.now) }
    ensures back { IsBack guard.entry result.0 }
    ensures pins { KeepsPins guard.entry result.0 }
    ensures recorded { RecordsOne guard.entry result.0 (look_shown look.entry) result.1 }
{
    let known = match noted {
        Some(room) if are_as_noted(&mut guard, room) => noted,
        _ => None,
    };
    let mut filler = Filler {
        guard,
        alloc,
        known,
        next: 0,
    };
    let reply = look_by(&mut filler, look.base, look.path, look.follow);
    let Filler {
        guard,
        alloc: _,
        known: _,
        next: _,
    } = filler;
    let call = look.call();
    match reply {
        Ok(reply) => answer::<W>(guard, &call, reply),
        // The tree knows where a text leads that no row has room for.
        Err(NoRoom) => seek::<W>(guard, &call),
    }
}

/// Answers a look-up as `look_up`, under a hold that it waits for.
pub(crate) fn look_up_waiting<R: Wait>(
    shared: &Shared,
    rt: &R,
    alloc: Global,
    seat: &mut Seat,
    noted: Option<&Room>,
    look: dc_walk::Look<'_>,
) -> Stamped
    requires can { CanWalk shared.now seat.old }
    requires noted { IfSome noted (λ room. AreNoted (view seat.old) (share seat.old).rows room.now) }
    ensures same { IsSamePass seat.old seat.new × IsIdle seat.new }
    ensures once { FillsOnce (known seat.old) (known seat.new) }
    ensures recorded { Records seat.old seat.new (look_shown look.entry) result }
{
    let guard = Guard::lock(shared, rt, seat);
    let (back, found) = look_up::<Sleepers>(guard, alloc, noted, look);
    // For the proof, here and below: the seat is back as it is bound.
    let _seat = back;
    found
}

/// Answers a look-up as `look_up`, under a hold that it tries for once. `None` if another pass has the lock.
pub(crate) fn look_up_trying<W: Wakes>(
    shared: &Shared,
    alloc: Global,
    seat: &mut Seat,
    noted: Option<&Room>,
    look: dc_walk::Look<'_>,
) -> Option<Stamped>
    requires can { CanWalk shared.now seat.old }
    requires noted { IfSome noted (λ room. AreNoted (view seat.old) (share seat.old).rows room.now) }
    ensures same { IsSamePass seat.old seat.new × IsIdle seat.new }
    ensures once { IfSome result (λ _. FillsOnce (known seat.old) (known seat.new)) }
    ensures recorded { IfSome result (Records seat.old seat.new (look_shown look.entry)) }
    ensures held { IfNone result (known seat.new ≡ tried (known seat.old)) }
{
    match Guard::try_lock(shared, seat) {
        Ok(guard) => {
            let (back, found) = look_up::<W>(guard, alloc, noted, look);
            let _seat = back;
            Some(found)
        }
        Err(_seat) => None,
    }
}

/// Makes a change, under a hold of the lock that it tries for once, and tells what goes by it if it is made,
/// if that is asked for. It looks the directory of the change's name up by rows before, and what goes is
/// what the change's plan has found. `None` if another pass has the lock.
pub(crate) fn change_trying<W: Wakes>(
    shared: &Shared,
    alloc: Global,
    seat: &mut Seat,
    room: &mut Room,
    call: &Call<'_>,
    telling: bool,
) -> Option<(Result<(Reply, u64), ChangeFault>, Option<Gone>)>
    requires can { CanWalk shared.now seat.old × IsChange call.now }
    ensures same { IsSamePass seat.old seat.new × IsIdle seat.new }
    ensures made { IfSome result (λ r.
        MakesOnce telling seat.old seat.new (request_of call.now) r.0 r.1) }
    ensures held { IfNone result (TriedAfterWalk (known seat.old) (known seat.new)) }
{
    let found = find_front(shared.reader(), seat, room, call);
    match Guard::try_lock(shared, seat) {
        Ok(mut guard) => {
            let known = still_known(&mut guard, room, found);
            let planned = guard.plan(call, known);
            let gone = going(guard.store(), &planned, telling);
            let (back, made) = guard.change_planned::<W>(alloc, call, planned);
            let _seat = back;
            Some((made, gone))
        }
        Err(_back) => None,
    }
}
