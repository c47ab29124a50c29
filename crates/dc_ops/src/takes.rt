//! Plans of entries that go.

ghost use Rattle.std.specs.Prelude.{◌≡◌, ◌==◌, ◌≤◌, true, Some, IfOk, IfSome};
ghost use Rattle.dc_ops.specs.Knowing.{IsKnownOn};
ghost use Rattle.dc_names.specs.Bytes.{is_empty};
ghost use Rattle.dc_plain.specs.IsWellFormed.{IsWellFormed};
ghost use Rattle.dc_plain.specs.KeysShown.{keys_in};
ghost use Rattle.dc_plain.specs.Requests.Request.{Rmdir, Unlink};
ghost use Rattle.dc_plain.specs.Resolution.{is_directory};
ghost use Rattle.dc_plain.specs.TouchedKeys.{keys_gone};
ghost use Rattle.dc_plain.specs.Trees.{names_in, names_of, target_at};
ghost use Rattle.dc_ops.specs.Plans.{PlanTakesNoMemory};
ghost use Rattle.dc_ops.specs.Settled.{SettlesUnlimited};
ghost use Rattle.dc_ops.specs.Taken.{taken, taken_by};

use crate::conditions::{name_or, name_or_each, place_text, present, refuse};
use crate::{Known, Plan};
use dc_names::Refusal;
use dc_plain::{Key, Target, is_directory};
use dc_store::Store;

/// The plan of a name that goes.
pub(crate) fn plan_unlink<'a, S: Store>(
    store: &S,
    known: Option<Known<'_>>,
    base: u64,
    path: &'a [u8],
) -> Result<Plan<'a>, Refusal>
    requires known { IfSome known (IsKnownOn (S.tree store.now)) }
    ensures settled { SettlesUnlimited (S.tree store.now) (Unlink base path.now) result }
    ensures taken { IfOk result (λ plan.
        taken plan ≡ taken_by (S.tree store.now) (Unlink base path.now)) }
    ensures without_memory { IfOk result PlanTakesNoMemory }
{
    let at = place_text(store, known, base, path)?;
    let name = name_or(Refusal::NotPermitted, at.last)?;
    let inode = present(store, at.dir, name)?;
    refuse(is_directory(inode), Refusal::NotPermitted)?;
    refuse(at.slash, Refusal::NotDirectory)?;
    Ok(Plan::Drop {
        dir: at.dir,
        name,
        number: inode.0,
        kind: inode.1,
        lost: lost_key(store, inode),
    })
}

/// The plan of an empty directory that goes.
pub(crate) fn plan_rmdir<'a, S: Store>(
    store: &S,
    known: Option<Known<'_>>,
    base: u64,
    path: &'a [u8],
) -> Result<Plan<'a>, Refusal>
    requires known { IfSome known (IsKnownOn (S.tree store.now)) }
    ensures settled { SettlesUnlimited (S.tree store.now) (Rmdir base path.now) result }
    ensures taken { IfOk result (λ plan.
        taken plan ≡ taken_by (S.tree store.now) (Rmdir base path.now)) }
    ensures without_memory { IfOk result PlanTakesNoMemory }
{
    let at = place_text(store, known, base, path)?;
    let name = name_or_each(Refusal::Busy, Refusal::Invalid, Refusal::NotEmpty, at.last)?;
    let inode = present(store, at.dir, name)?;
    refuse(!is_directory(inode), Refusal::NotDirectory)?;
    refuse(!is_empty(store, inode), Refusal::NotEmpty)?;
    Ok(Plan::Drop {
        dir: at.dir,
        name,
        number: inode.0,
        kind: inode.1,
        lost: lost_key(store, inode),
    })
}

/// Whether no entry stands in a directory.
pub(crate) fn is_empty<S: Store>(store: &S, target: Target) -> bool
    requires lives { target_at (S.tree store.now) target.0 ≡ Some target }
    requires directory { is_directory target ≡ true }
    ensures { result ≡ is_empty (names_in (S.tree store.now) target.0) }
{
    store.count(target.0) == 0
}

/// The key of its own that an inode loses with an entry, if that is its last name. A file has none,
/// so its names are not counted.
pub(crate) fn lost_key<'a, S: Store>(store: &S, target: Target) -> Option<Key<'a>>
    requires lives { target_at (S.tree store.now) target.0 ≡ Some target }
    requires named { 1 ≤ names_of (S.tree store.now) target.0 }
    requires well { IsWellFormed (S.tree store.now) }
    ensures { keys_in result ≡ keys_gone (S.tree store.now) target.0 }
{
    let key = Key::own(target.0, target.1)?;
    has_one_name(store, target).then_some(key)
}

/// Whether an inode has one name alone, as each directory but the root has.
fn has_one_name<S: Store>(store: &S, target: Target) -> bool
    requires lives { target_at (S.tree store.now) target.0 ≡ Some target }
    requires named { 1 ≤ names_of (S.tree store.now) target.0 }
    requires well { IsWellFormed (S.tree store.now) }
    ensures { result ≡ (names_of (S.tree store.now) target.0 == 1) }
{
    is_directory(target) || store.count(target.0) == 1
}
