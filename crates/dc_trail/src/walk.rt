//! A walk that keeps its trail.

ghost use Rattle.std.specs.Prelude.{◌≡◌, ◌≤◌, ◌+◌, ◌*◌, length, take, IfOk};
ghost use Rattle.dc_names.specs.declared.limits.TheConstants.{MOST_LINKS};
ghost use Rattle.dc_resolve.specs.Ends.{outcome_shown, walk_by, Stands};
ghost use Rattle.dc_resolve.specs.Needs.{MayAsk};
ghost use Rattle.dc_trail.specs.Keeping.{FinderKept, HasLongerTrail, IfFull, IsTrailBy};

use crate::halt::Halt;
use crate::trailed::{Question, Trailed};
use dc_names::PathText;
use dc_plain::Follow;
use dc_resolve::{Finder, Walked, walk};

/// Where a path leads from a starting directory, as `walk` of `dc_resolve`, and its trail: each directory
/// in which the resolution asks for a name or for dot-dot, up to where it ends, once, in the order in which
/// it asks there first. It is written into the caller's places, and the number says how many it takes.
///
/// A relative path asks its starting directory first, whether that lives; a dot and the root's dot-dot
/// ask nothing. `Full` if the trail has more directories than there are places.
pub fn walk_along<F: Finder>(
    finder: &mut F,
    base: u64,
    path: PathText<'_>,
    follow: Follow,
    trail: &mut [u64],
) -> Result<(Walked, usize), Halt<F::Stop>>
    requires may { MayAsk F.Finder finder.old (walk_by base path.bytes.now follow) }
    requires spend { F.may_spend finder.old
        (2 + length path.bytes.now + MOST_LINKS * F.link_bytes) }
    ensures places { length trail.new ≡ length trail.old }
    ensures answer { IfOk result (λ r. Stands (F.said finder.new)
        (walk_by base path.entry.bytes.now follow) (outcome_shown r.0)) }
    ensures trail { IfOk result (λ r. (r.1 ≤ length trail.new)
        × IsTrailBy (F.said finder.new) base path.entry.bytes.now follow (take r.1 trail.new)) }
    ensures full { IfFull result (HasLongerTrail (F.said finder.new) base path.entry.bytes.now follow
        (length trail.new)) }
    ensures kept { FinderKept F.Finder finder.old finder.new result }
{
    let mut along = Trailed {
        finder,
        numbers: trail,
        len: 0,
        question: Question { base, path, follow },
    };
    let walked = walk(&mut along, base, path, follow);
    let many = along.len;
    match walked {
        Ok(end) => Ok((end, many)),
        Err(halt) => Err(halt),
    }
}
