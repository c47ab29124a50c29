//! Plans of entries that move.

ghost use Rattle.std.specs.Prelude.{◌≡◌, ◌≤◌, ◌==◌, ◌&&◌, not, true, option_map, Some, None, IfErr, IfOk, IfSome, Ok, Err, OnOk, IsTrue};
ghost use Rattle.dc_plain.specs.IsWellFormed.{IsWellFormed};
ghost use Rattle.dc_plain.specs.KeysShown.{keys_in};
ghost use Rattle.dc_plain.specs.Operations.{replaceable, same_inode};
ghost use Rattle.dc_plain.specs.Requests.Request.{Rename};
ghost use Rattle.dc_plain.specs.Resolution.{is_directory};
ghost use Rattle.dc_plain.specs.Spots.{spot_at, spot_shown};
ghost use Rattle.dc_plain.specs.TouchedKeys.{keys_gone, with_number};
ghost use Rattle.dc_plain.specs.Trees.{is_live_directory, names_of, target_at, entry_number};
ghost use Rattle.dc_ops.specs.Knowing.{IsKnownOn};
ghost use Rattle.dc_ops.specs.Renames.{lies_beneath, SettlesMove, SettlesNamed, SettlesSwap};
ghost use Rattle.dc_ops.specs.Replaced.{TakesMoved, TakesNamed};
ghost use Rattle.dc_ops.specs.Settled.{FoundTakesNoMemory, SettlesUnlimitedIf};
ghost use Rattle.dc_ops.specs.Taken.{taken_by, taken_if};

use crate::conditions::{name_or_each, present, refuse};
use crate::finder::entry;
use crate::paths::{path_of, place_path};
use crate::takes::{is_empty, lost_key};
use crate::{Known, Moved, Plan};
use dc_names::{Name, Refusal};
use dc_plain::{
    Flags, Key, Spot, Target, Where, directories_have_one_holder, is_directory,
    names_lead_to_the_living, paths_lead_to_the_living,
};
use dc_store::Store;

/// The plan of a rename, or none if both names lead to one inode.
pub(crate) fn plan_rename<'a, S: Store>(
    store: &S,
    known: Option<Known<'_>>,
    base: u64,
    old: &'a [u8],
    new: &'a [u8],
    flags: Flags,
) -> Result<Option<Plan<'a>>, Refusal>
    requires known { IfSome known (IsKnownOn (S.tree store.now)) }
    ensures settled { SettlesUnlimitedIf (S.tree store.now)
        (Rename base old.now new.now flags) result }
    ensures taken { IfOk result (λ found.
        taken_if found ≡ taken_by (S.tree store.now) (Rename base old.now new.now flags)) }
    ensures without_memory { IsTrue flags.exchange → FoundTakesNoMemory result }
{
    paths_lead_to_the_living();
    refuse(flags.no_replace && flags.exchange, Refusal::Invalid)?;
    let old_path = path_of(old)?;
    let new_path = path_of(new)?;
    let from = place_path(store, known, base, old_path)?;
    let to = place_path(store, known, base, new_path)?;
    let old_name = name_or_each(Refusal::Busy, Refusal::Invalid, Refusal::Invalid, from.last)?;
    let new_name = name_or_each(Refusal::Busy, Refusal::Invalid, Refusal::Invalid, to.last)?;
    plan_named(store, from, old_name, to, new_name, flags)
}

/// The plan of a rename once both names are known.
fn plan_named<'a, S: Store>(
    store: &S,
    from: Where<'a>,
    old: Name<'a>,
    to: Where<'a>,
    new: Name<'a>,
    flags: Flags,
) -> Result<Option<Plan<'a>>, Refusal>
    requires old_held { IsWellFormed (S.tree store.now)
        → IsTrue (is_live_directory (S.tree store.now) from.dir) }
    requires new_held { IsWellFormed (S.tree store.now)
        → IsTrue (is_live_directory (S.tree store.now) to.dir) }
    ensures settled { SettlesNamed (S.tree store.now)
        from.entry old.entry to.entry new.entry flags result }
    ensures taken { IfOk result (TakesNamed (S.tree store.now)
        from.entry old.entry to.entry new.entry flags.exchange) }
    ensures without_memory { IsTrue flags.exchange → FoundTakesNoMemory result }
{
    let moved = present(store, from.dir, old)?;
    if flags.exchange {
        return plan_swap(store, from, old, to, new, moved);
    }
    let ends = from.slash || to.slash;
    refuse(!is_directory(moved) && ends, Refusal::NotDirectory)?;
    let from = Spot {
        dir: from.dir,
        name: old,
    };
    let to = Spot {
        dir: to.dir,
        name: new,
    };
    plan_move(store, from, to, moved, flags.no_replace)
}

/// The plan of a move of what stands at the old name.
fn plan_move<'a, S: Store>(
    store: &S,
    from: Spot<'a>,
    to: Spot<'a>,
    moved: Target,
    no_replace: bool,
) -> Result<Option<Plan<'a>>, Refusal>
    requires source { entry_number (S.tree store.now) (spot_shown from) ≡ Some moved.0 }
    requires lives { target_at (S.tree store.now) moved.0 ≡ Some moved }
    requires held { IsTrue (is_live_directory (S.tree store.now) to.dir) }
    ensures settled { SettlesMove (S.tree store.now) from.entry to.entry moved no_replace result }
    ensures taken { IfOk result (TakesMoved (S.tree store.now) to.entry moved) }
{
    let there = entry(store, to.dir, to.name);
    refuse(no_replace && there.is_some(), Refusal::Exists)?;
    if is_one(moved, there) {
        return Ok(None);
    }
    refuse(is_inside(store, to.dir, moved), Refusal::Invalid)?;
    check_replaceable(store, moved, there)?;
    Ok(Some(Plan::Move {
        from,
        to,
        number: moved.0,
        reparents: reparents(moved, from.dir, to.dir),
        over: there,
        lost: lost_there(store, there),
    }))
}

/// The plan of a swap of what stands at the two names.
fn plan_swap<'a, S: Store>(
    store: &S,
    from: Where<'a>,
    old: Name<'a>,
    to: Where<'a>,
    new: Name<'a>,
    moved: Target,
) -> Result<Option<Plan<'a>>, Refusal>
    requires source { entry_number (S.tree store.now) (spot_at from.dir old.bytes.now)
        ≡ Some moved.0 }
    requires lives { target_at (S.tree store.now) moved.0 ≡ Some moved }
    requires old_held { IsTrue (is_live_directory (S.tree store.now) from.dir) }
    requires new_held { IsTrue (is_live_directory (S.tree store.now) to.dir) }
    ensures settled { SettlesSwap (S.tree store.now)
        from.entry old.entry to.entry new.entry moved result }
    ensures taken { IfOk result (λ found. taken_if found ≡ None) }
    ensures without_memory { FoundTakesNoMemory result }
{
    let there = present(store, to.dir, new)?;
    refuse(!is_directory(moved) && from.slash, Refusal::NotDirectory)?;
    refuse(!is_directory(there) && to.slash, Refusal::NotDirectory)?;
    if moved.0 == there.0 {
        return Ok(None);
    }
    refuse(is_inside(store, to.dir, moved), Refusal::Invalid)?;
    refuse(is_inside(store, from.dir, there), Refusal::Invalid)?;
    Ok(Some(Plan::Swap {
        from: Spot {
            dir: from.dir,
            name: old,
        },
        to: Spot {
            dir: to.dir,
            name: new,
        },
        first: Moved {
            number: moved.0,
            reparents: reparents(moved, from.dir, to.dir),
        },
        second: Moved {
            number: there.0,
            reparents: reparents(there, to.dir, from.dir),
        },
    }))
}

/// Whether both names lead to one inode.
fn is_one(moved: Target, there: Option<Target>) -> bool
    ensures { result ≡ same_inode moved there }
{
    match there {
        Some(target) => moved.0 == target.0,
        None => false,
    }
}

/// Refuses if what stands at the new name may not be replaced.
fn check_replaceable<S: Store>(
    store: &S,
    moved: Target,
    there: Option<Target>,
) -> Result<(), Refusal>
    requires lives { IfSome there (λ target.
        target_at (S.tree store.now) target.0 ≡ Some target) }
    ensures ok { OnOk result (replaceable (S.tree store.now) moved there ≡ Ok true) }
    ensures err { IfErr result (λ r. replaceable (S.tree store.now) moved there ≡ Err r) }
{
    let Some(target) = there else {
        return Ok(());
    };
    if !is_directory(moved) {
        return refuse(is_directory(target), Refusal::IsDirectory);
    }
    refuse(!is_directory(target), Refusal::NotDirectory)?;
    refuse(!is_empty(store, target), Refusal::NotEmpty)
}

/// Whether a directory that moves gets another parent.
fn reparents(moved: Target, from: u64, to: u64) -> bool
    ensures { result ≡ (is_directory moved && not (from == to)) }
{
    is_directory(moved) && from != to
}

/// The key of its own that goes with a last name, if something stands there.
fn lost_there<'a, S: Store>(store: &S, there: Option<Target>) -> Option<Key<'a>>
    requires lives { IfSome there (λ target.
        target_at (S.tree store.now) target.0 ≡ Some target) }
    requires named { IfSome there (λ target. 1 ≤ names_of (S.tree store.now) target.0) }
    requires well { IsWellFormed (S.tree store.now) }
    ensures { keys_in result
        ≡ with_number (option_map (λ target. target.0) there) (keys_gone (S.tree store.now)) }
{
    lost_key(store, there?)
}

/// Whether an inode is a directory that is this one or above it.
fn is_inside<S: Store>(store: &S, dir: u64, target: Target) -> bool
    requires { IsTrue (is_live_directory (S.tree store.now) dir) }
    ensures { result ≡ (is_directory target && lies_beneath (S.tree store.now) dir target.0) }
{
    is_directory(target) && is_beneath(store, dir, target.0)
}

/// Whether going up from a directory one meets an inode. The slow machine of `dc_plain` has a copy of its
/// own, on purpose: a mistake in one of the two isn't one of both.
fn is_beneath<S: Store>(store: &S, dir: u64, number: u64) -> bool
    requires { IsTrue (is_live_directory (S.tree store.now) dir) }
    ensures { result ≡ lies_beneath (S.tree store.now) dir number }
{
    directories_have_one_holder();
    names_lead_to_the_living();
    let mut at = dir;
    let mut left = store.live();
    'up: while left > 0 {
        if at == number {
            return true;
        }
        if at == 1 {
            return false;
        }
        let Some(up) = store.parent(at) else {
            return false;
        };
        at = up;
        left -= 1;
    }
    true
}
