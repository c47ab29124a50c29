//! Where paths lead on a store.

ghost use Rattle.std.specs.Prelude.{◌≡◌, IfOk, IfSome};
ghost use Rattle.dc_ops.specs.Knowing.{IsKnownOn};
ghost use Rattle.dc_names.specs.Paths.{path_in};
ghost use Rattle.dc_names.specs.Refusals.{Gives};
ghost use Rattle.dc_plain.specs.Ends.{end_on};
ghost use Rattle.dc_plain.specs.Refusals.{path_or_fault, place_on};
ghost use Rattle.dc_plain.specs.Spots.{where_shown};

use crate::Known;
use crate::finder::StoreFinder;
use dc_names::{PathText, Refusal, parse};
use dc_plain::{Follow, Target, Where};
use dc_resolve::{Placed, Walked, place, place_in, walk};
use dc_store::Store;

/// The path of a text, or the refusal of its first fault.
pub(crate) fn path_of(text: &[u8]) -> Result<PathText<'_>, Refusal>
    ensures path { Gives result (λ path. path_in path.bytes.now) (path_or_fault text.now) }
    ensures bytes { IfOk result (λ path. path.bytes.now ≡ text.now) }
{
    Ok(parse(text)?)
}

/// Where a path leads, or its refusal.
pub(crate) fn walk_path<S: Store>(
    store: &S,
    base: u64,
    path: PathText<'_>,
    follow: Follow,
) -> Result<Target, Refusal>
    ensures { Gives result (λ target. target)
        (end_on (S.tree store.now) base path.entry.bytes.now follow) }
{
    let mut finder = StoreFinder { store };
    let Ok(walked) = walk(&mut finder, base, path, follow);
    // A finder has no `Drop`, so it can't be let go, but is taken apart.
    let StoreFinder { store: _ } = finder;
    match walked {
        Walked::Found(target) => Ok(target),
        Walked::Refused(refusal) => Err(refusal),
    }
}

/// Where the last part of a path is to be looked up, or the path's refusal. If the directory is known the
/// store isn't asked.
pub(crate) fn place_path<'p, S: Store>(
    store: &S,
    known: Option<Known<'_>>,
    base: u64,
    path: PathText<'p>,
) -> Result<Where<'p>, Refusal>
    requires known { IfSome known (IsKnownOn (S.tree store.now)) }
    ensures { Gives result where_shown
        (place_on (S.tree store.now) base (path_in path.entry.bytes.now)) }
{
    if let Some(known) = known
        && known.base == base
        && let Some(at) = place_in(path, known.front, known.dir)
    {
        return Ok(at);
    }
    let mut finder = StoreFinder { store };
    let Ok(placed) = place(&mut finder, base, path);
    // Taken apart, as it has no `Drop`.
    let StoreFinder { store: _ } = finder;
    match placed {
        Placed::At(at) => Ok(at),
        Placed::Refused(refusal) => Err(refusal),
    }
}
