//! The tests that changes make of a store and of their paths, each with its refusal.

ghost use Rattle.std.specs.Prelude.{◌≡◌, ◌≤◌, true, false, None, Some, is_some, IfOk, IfErr, IfSome, OnOk};
ghost use Rattle.dc_ops.specs.Knowing.{IsKnownOn};
ghost use Rattle.dc_names.specs.Lasts.{last_shown, name_or, name_or_each};
ghost use Rattle.dc_names.specs.Lasts.Last.{Name as Named};
ghost use Rattle.dc_names.specs.Refusals.{Gives};
ghost use Rattle.dc_names.specs.declared.refusal.Refusal.TheVariants.{NotFound};
ghost use Rattle.dc_plain.specs.Facts.Label.{Entry};
ghost use Rattle.dc_plain.specs.IsWellFormed.{IsWellFormed};
ghost use Rattle.dc_plain.specs.Refusals.{is_full, present, where_on};
ghost use Rattle.dc_plain.specs.Spots.{where_shown};
ghost use Rattle.dc_plain.specs.Trees.{entry_of, target_at, names_of};
ghost use Rattle.dc_ops.specs.Found.{number_at};

use crate::Known;
use crate::finder::entry;
use crate::paths::{path_of, place_path};
use dc_names::{Last, Name, Refusal};
use dc_plain::{NUMBER_LIMIT, Target, Where};
use dc_store::Store;

/// This refusal if a test holds.
pub(crate) fn refuse(test: bool, refusal: Refusal) -> Result<(), Refusal>
    ensures ok { OnOk result (test ≡ false) }
    ensures err { IfErr result (λ r. (test ≡ true) × (r ≡ refusal)) }
{
    dc_plain::refuse(test, refusal)
}

/// Where a text's last part is to be looked up, or its refusal.
pub(crate) fn place_text<'p, S: Store>(
    store: &S,
    known: Option<Known<'_>>,
    base: u64,
    text: &'p [u8],
) -> Result<Where<'p>, Refusal>
    requires known { IfSome known (IsKnownOn (S.tree store.now)) }
    ensures { Gives result where_shown (where_on (S.tree store.now) base text.now) }
{
    place_path(store, known, base, path_of(text)?)
}

/// The name that a path ends in, or else this refusal.
pub(crate) fn name_or(refusal: Refusal, last: Last<'_>) -> Result<Name<'_>, Refusal>
    ensures shown { Gives result (λ name. name.bytes.now)
        (name_or refusal (last_shown last.entry)) }
    ensures named { IfOk result (λ name. last_shown last.entry ≡ Named name.bytes.now) }
{
    last.name_or(refusal)
}

/// The name that a path ends in, or else the refusal for the root, for dot or for dot-dot.
pub(crate) fn name_or_each(
    root: Refusal,
    dot: Refusal,
    dot_dot: Refusal,
    last: Last<'_>,
) -> Result<Name<'_>, Refusal>
    ensures shown { Gives result (λ name. name.bytes.now)
        (name_or_each root dot dot_dot (last_shown last.entry)) }
    ensures named { IfOk result (λ name. last_shown last.entry ≡ Named name.bytes.now) }
{
    last.name_or_each(root, dot, dot_dot)
}

/// Where a name in a directory leads, or else ENOENT.
pub(crate) fn present<S: Store>(store: &S, dir: u64, name: Name<'_>) -> Result<Target, Refusal>
    ensures found { Gives result (λ target. target)
        (present NotFound (entry_of (S.tree store.now) dir (Entry name.entry.bytes.now))) }
    ensures target { IfOk result (λ target.
        number_at (S.tree store.now) dir name.entry ≡ Some target.0) }
    ensures lives { IfOk result (λ target. target_at (S.tree store.now) target.0 ≡ Some target) }
    ensures named { IfOk result (λ target. 1 ≤ names_of (S.tree store.now) target.0) }
    ensures well { IsWellFormed (S.tree store.now) }
{
    entry(store, dir, name).ok_or(Refusal::NotFound)
}

/// Whether no further inode may be made.
pub(crate) fn is_full<S: Store>(store: &S, max_inodes: u64) -> bool
    ensures full { result ≡ is_full max_inodes (S.tree store.now) }
    ensures well { IsWellFormed (S.tree store.now) }
{
    max_inodes <= store.live() || store.next() == NUMBER_LIMIT
}

/// Whether a name is an entry of a directory.
pub(crate) fn is_there<S: Store>(store: &S, dir: u64, name: Name<'_>) -> bool
    ensures there { result
        ≡ is_some (entry_of (S.tree store.now) dir (Entry name.entry.bytes.now)) }
    ensures free { result ≡ false → number_at (S.tree store.now) dir name.entry ≡ None }
    ensures well { IsWellFormed (S.tree store.now) }
{
    entry(store, dir, name).is_some()
}
