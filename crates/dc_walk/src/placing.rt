//! Where a change makes or takes a name, by rows alone, before the change has the lock.

ghost use Rattle.std.specs.Prelude.{◌≡◌, true, IfSome};
ghost use Rattle.dc_ops.specs.Asked.{IsChange};
ghost use Rattle.dc_ops.specs.Knowing.{IsKnownOn};
ghost use Rattle.dc_plain.specs.Requests.{request_of};
ghost use Rattle.dc_rows.specs.Guards.{seat_of, kept_by, IsStill};
ghost use Rattle.dc_rows.specs.Outcomes.{MakesAlone};
ghost use Rattle.dc_table.specs.Changes.{NothingNew};
ghost use Rattle.dc_table.specs.Holders.{table_of};
ghost use Rattle.dc_table.specs.Passes.{known, view, share, IsIdle, IsSamePass, StaysOut};
ghost use Rattle.dc_table.specs.Shares.{HadOnce};
ghost use Rattle.dc_walk.specs.Findings.{CanWalk};
ghost use Rattle.dc_walk.specs.Placing.{AreNoted, AreTrue, IsFoundBy};

use crate::look::Look;
use crate::used::Room;
use crate::walk::walk_rows_briefly;
use dc_names::{Kind, parse};
use dc_ops::Known;
use dc_plain::{Call, Follow, Reply, answers_from_true_facts_are_replies};
use dc_resolve::before_last_part;
use dc_row::words_have_the_fact_they_spell;
use dc_rows::{ChangeFault, Guard};
use dc_table::{Pass, Reader, Shared, Sleepers};
use std::alloc::Global;
use std::sync::Wait;

/// The directory that a call starts in, and its path: of a link that of the new name, of a rename that of
/// the old one.
fn path_of<'a>(call: &Call<'a>) -> (u64, &'a [u8]) {
    match *call {
        Call::Link {
            base,
            new: path,
            ..
        }
        | Call::Rename {
            base,
            old: path,
            ..
        }
        | Call::Look { base, path, .. }
        | Call::Readlink { base, path }
        | Call::Stat { base, path }
        | Call::List { base, path }
        | Call::Mkdir { base, path }
        | Call::Create { base, path }
        | Call::Symlink { base, path, .. }
        | Call::Unlink { base, path }
        | Call::Rmdir { base, path } => (base, path),
    }
}

/// Where all components of a call's path but the last lead, by the rows of a table alone. It takes no
/// lock and no memory, never waits, and records nothing. `None` if there are none, if they lead to
/// no directory, or if the rows don't tell. What was found is known of the tree if `still_known` says so
/// under the lock, with the room as it is then.
pub fn find_front<'a>(
    reader: Reader<'_>,
    pass: &mut Pass,
    room: &mut Room,
    call: &Call<'a>,
) -> Option<Known<'a>>
    requires can { CanWalk (table_of reader) pass.old }
    ensures same { StaysOut pass.old pass.new }
    ensures nothing { NothingNew (view pass.old) (view pass.new) }
    ensures found { IfSome result (IsFoundBy (view pass.new) (share pass.new).rows room.new) }
{
    let (base, text) = path_of(call);
    let front = before_last_part(text);
    // The directory that the call starts in, or the root: there is nothing to look up.
    if front.len() < 2 {
        return None;
    }
    let look = Look {
        base,
        path: parse(front).ok()?,
        follow: Follow::Dir,
    };
    // Rows of an earlier walk would be taken for this one's.
    room.clear();
    match walk_rows_briefly(reader, pass, room, look) {
        Ok((Reply::Found(dir, Kind::Dir), true)) => Some(Known { base, front, dir }),
        _ => None,
    }
}

/// Whether each row that a walk used before is as it was, for the pass that has got the lock since. Then
/// what they tell is true of the tree, and no other thread can change that.
pub fn are_as_noted(guard: &mut Guard<'_>, room: &Room) -> bool
    requires noted { let p = seat_of guard.old in AreNoted (view p) (share p).rows room.now }
    ensures same { IsStill guard.old guard.new }
    ensures told { result ≡ true → AreTrue (kept_by guard.old).store room.now }
{
    words_have_the_fact_they_spell();
    for c in 0..room.len() {
        if !guard.is_as_noted(room.place_at(c), room.row_at(c), room.count_at(c)) {
            return false;
        }
    }
    true
}

/// Whether what was found still holds, for the pass that has got the lock since. Then the path leads there
/// on the tree.
fn is_known(guard: &mut Guard<'_>, room: &Room, known: Known<'_>) -> bool
    requires found { let p = seat_of guard.old in IsFoundBy (view p) (share p).rows room.now known }
    ensures same { IsStill guard.old guard.new }
    ensures known { result ≡ true → IsKnownOn (kept_by guard.old).store known.entry }
{
    answers_from_true_facts_are_replies();
    are_as_noted(guard, room)
}

/// What was found before, if it still holds, for the pass that has got the lock since. Then the path leads
/// there on the tree.
#[must_use]
pub fn still_known<'a>(
    guard: &mut Guard<'_>,
    room: &Room,
    found: Option<Known<'a>>,
) -> Option<Known<'a>>
    requires found { IfSome found (let p = seat_of guard.old in
        IsFoundBy (view p) (share p).rows room.now) }
    ensures same { IsStill guard.old guard.new }
    ensures known { IfSome result (IsKnownOn (kept_by guard.old).store) }
{
    match found {
        Some(front) if is_known(guard, room, front) => found,
        _ => None,
    }
}

/// Makes a change, as `dc_rows::change`. It looks the directory of the change's name up by rows before it
/// waits for the lock, so that the lock is held for no longer than the name itself takes.
pub fn change_by_rows<R: Wait>(
    shared: &Shared,
    rt: &R,
    alloc: Global,
    pass: &mut Pass,
    room: &mut Room,
    call: &Call<'_>,
) -> Result<(Reply, u64), ChangeFault>
    requires can { CanWalk shared.now pass.old × IsChange call.now }
    ensures same { IsSamePass pass.old pass.new × IsIdle pass.new }
    ensures once { HadOnce (known pass.old) (known pass.new) }
    ensures made { MakesAlone pass.old pass.new (request_of call.now) result }
{
    let found = find_front(shared.reader(), pass, room, call);
    let mut guard = Guard::lock(shared, rt, pass);
    let known = still_known(&mut guard, room, found);
    let (back, made) = guard.change_knowing::<Sleepers>(alloc, call, known);
    // For the proof: the pass is back as it is bound.
    let _pass = back;
    made
}
