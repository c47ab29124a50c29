//! The walk of a whole path, and what it comes to.

ghost use Rattle.std.specs.Prelude.{◌+◌, ◌*◌, IfOk, length};
ghost use Rattle.dc_names.specs.declared.limits.TheConstants.{MOST_LINKS};
ghost use Rattle.dc_resolve.specs.Ends.{outcome_shown, walk_by, Stands};
ghost use Rattle.dc_resolve.specs.Finders.{KeepsAnswering};
ghost use Rattle.dc_resolve.specs.Needs.{MayAsk};

use crate::Finder;
use crate::resolution::resolve_from;
use dc_names::{PathText, Refusal};
use dc_plain::{Follow, Target};

/// Where a path leads.
#[derive(Clone, Copy, PartialEq, Eq)]
pub enum Walked {
    /// An inode's number and its kind.
    Found(Target),
    /// Why it leads nowhere.
    Refused(Refusal),
}

/// Where a path leads from a starting directory, by the answers of a finder (POSIX.1-2017 XBD 4.13), or
/// why the finder gave up. It asks only for what its outcome can't be told without.
///
/// It is refused with `NotFound`, `NotDirectory` or `TooManyLinks`, the last if more than `MOST_LINKS`
/// links would be followed, and with nothing else: see `dc_plain::resolution_refuses_by_a_list`.
pub fn walk<F: Finder>(
    finder: &mut F,
    base: u64,
    path: PathText<'_>,
    follow: Follow,
) -> Result<Walked, F::Stop>
    requires may { MayAsk F.Finder finder.old (walk_by base path.bytes.now follow) }
    // Two bytes are those of the dot-dot by which the starting directory is asked for.
    requires spend { F.may_spend finder.old
        (2 + length path.bytes.now + MOST_LINKS * F.link_bytes) }
    // Whatever else may be learnt later, the outcome stays.
    ensures answer { IfOk result (λ walked. Stands (F.said finder.new)
        (walk_by base path.entry.bytes.now follow) (outcome_shown walked)) }
    ensures kept { KeepsAnswering F.Finder finder.old finder.new result }
{
    let slash = path.has_end_slash();
    resolve_from(finder, base, path, path.bytes(), slash, follow)
}
