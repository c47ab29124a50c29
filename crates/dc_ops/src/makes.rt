//! Plans of entries that come.

ghost use Rattle.std.specs.Prelude.{◌≡◌, nat_le, false, Some, None, IfOk, IfSome, IsTrue};
ghost use Rattle.dc_ops.specs.Knowing.{IsKnownOn};
ghost use Rattle.dc_plain.specs.IsWellFormed.{IsWellFormed};
ghost use Rattle.dc_plain.specs.Requests.Request.{Hard_link, Symlink};
ghost use Rattle.dc_plain.specs.Resolution.{is_directory};
ghost use Rattle.dc_plain.specs.Trees.{is_live_directory, names_of, target_at};
ghost use Rattle.dc_names.specs.declared.limits.TheConstants.{MOST_NAMES};
ghost use Rattle.dc_ops.specs.Makes.{MakesInode, SettlesLink, SettlesMade, may_end_in_slash};
ghost use Rattle.dc_ops.specs.Settled.{SettlesCall, SettlesUnlimited};
ghost use Rattle.dc_ops.specs.Taken.{taken};

use crate::conditions::{is_full, is_there, name_or, place_text, present, refuse};
use crate::paths::{path_of, place_path};
use crate::{Known, Plan};
use dc_names::{Name, Refusal};
use dc_plain::{MOST_NAMES, Target, Where, is_directory, paths_lead_to_the_living};
use dc_store::{New, Store};

/// The plan of an entry for a new inode.
pub(crate) fn plan_make<'a, S: Store>(
    store: &S,
    known: Option<Known<'_>>,
    base: u64,
    path: &'a [u8],
    new: New<'a>,
    max_inodes: u64,
) -> Result<Plan<'a>, Refusal>
    requires new { MakesInode new }
    requires known { IfSome known (IsKnownOn (S.tree store.now)) }
    ensures settled { SettlesMade max_inodes (S.tree store.now) base path.now new.entry result }
    ensures taken { IfOk result (λ plan. taken plan ≡ None) }
{
    paths_lead_to_the_living();
    let at = place_text(store, known, base, path)?;
    let name = name_or(Refusal::Exists, at.last)?;
    refuse(is_there(store, at.dir, name), Refusal::Exists)?;
    refuse(at.slash && !may_end_in_slash(new), Refusal::NotFound)?;
    refuse(is_full(store, max_inodes), Refusal::NoSpace)?;
    Ok(Plan::Add {
        dir: at.dir,
        name,
        new,
        number: store.next(),
    })
}

/// Whether a slash may end the path of what is made.
fn may_end_in_slash(new: New<'_>) -> bool
    ensures { result ≡ may_end_in_slash new.entry }
{
    matches!(new, New::Dir)
}

/// The plan of a new symbolic link.
pub(crate) fn plan_symlink<'a, S: Store>(
    store: &S,
    known: Option<Known<'_>>,
    base: u64,
    text: &'a [u8],
    path: &'a [u8],
    max_inodes: u64,
) -> Result<Plan<'a>, Refusal>
    requires known { IfSome known (IsKnownOn (S.tree store.now)) }
    ensures settled { SettlesCall max_inodes (S.tree store.now) (Symlink base text.now path.now) result }
    ensures taken { IfOk result (λ plan. taken plan ≡ None) }
{
    // The text's fault is refused before the path is looked at.
    let text = path_of(text)?;
    plan_make(store, known, base, path, New::Link(text), max_inodes)
}

/// The plan of a further name.
pub(crate) fn plan_link<'a, S: Store>(
    store: &S,
    known: Option<Known<'_>>,
    base: u64,
    old: &'a [u8],
    new: &'a [u8],
) -> Result<Plan<'a>, Refusal>
    requires known { IfSome known (IsKnownOn (S.tree store.now)) }
    ensures settled { SettlesUnlimited (S.tree store.now) (Hard_link base old.now new.now) result }
    ensures taken { IfOk result (λ plan. taken plan ≡ None) }
{
    paths_lead_to_the_living();
    let old_path = path_of(old)?;
    let new_path = path_of(new)?;
    let from = place_path(store, known, base, old_path)?;
    let to = place_path(store, known, base, new_path)?;
    let old_name = name_or(Refusal::NotPermitted, from.last)?;
    let new_name = name_or(Refusal::Exists, to.last)?;
    link_at(store, from, old_name, to, new_name)
}

/// The plan of a further name once both names are known.
fn link_at<'a, S: Store>(
    store: &S,
    from: Where<'a>,
    old: Name<'a>,
    to: Where<'a>,
    new: Name<'a>,
) -> Result<Plan<'a>, Refusal>
    requires { IsWellFormed (S.tree store.now)
        → IsTrue (is_live_directory (S.tree store.now) to.dir) }
    ensures settled { SettlesLink (S.tree store.now) from.entry old.entry to.entry new.entry result }
    ensures taken { IfOk result (λ plan. taken plan ≡ None) }
{
    let inode = present(store, from.dir, old)?;
    refuse(is_directory(inode), Refusal::NotPermitted)?;
    refuse(from.slash, Refusal::NotDirectory)?;
    refuse(is_there(store, to.dir, new), Refusal::Exists)?;
    refuse(to.slash, Refusal::NotFound)?;
    refuse(has_most_names(store, inode), Refusal::TooManyNames)?;
    Ok(Plan::Add {
        dir: to.dir,
        name: new,
        new: New::Same(inode.0),
        number: inode.0,
    })
}

/// Whether a file or link may have no further name.
fn has_most_names<S: Store>(store: &S, target: Target) -> bool
    requires lives { target_at (S.tree store.now) target.0 ≡ Some target }
    requires file { is_directory target ≡ false }
    ensures { result ≡ nat_le MOST_NAMES (names_of (S.tree store.now) target.0) }
{
    MOST_NAMES <= store.count(target.0)
}
