//! One part on, and where a resolution ends.

ghost use Rattle.std.specs.Prelude.{◌≡◌, ◌&&◌, not, Some, IfOk, IsTrue, length};
ghost use Rattle.dc_names.specs.Hash.{hash_of};
ghost use Rattle.dc_names.specs.Names.{part_shown};
ghost use Rattle.dc_names.specs.Paths.{bytes_of};
ghost use Rattle.dc_names.specs.declared.kind.Kind.TheVariants.{Link};
ghost use Rattle.dc_plain.specs.Resolution.{ending, keeps_link, met_by};
ghost use Rattle.dc_resolve.specs.Asked.{label_of};
ghost use Rattle.dc_resolve.specs.Ends.{outcome_shown};
ghost use Rattle.dc_resolve.specs.Finders.{KeepsAnswering};
ghost use Rattle.dc_resolve.specs.Needs.{asks};
ghost use Rattle.dc_resolve.specs.Spends.{MaySpend, Spends};
ghost use Rattle.dc_resolve.specs.Steps.{met_shown, Leads, IfMeets, IsSaidMet};

use crate::outcome::Reached;
use crate::{Finder, Walked};
use dc_names::{Kind, Part, Refusal};
use dc_plain::{Follow, ROOT, Target, is_directory};

/// What an entry leads to, by what a finder found there. The slow machine of `dc_plain` has its own.
// Inlined, as is all that a walk does for each part.
#[inline(always)]
fn on_to(there: Option<Target>) -> Reached
    ensures met { Some (met_shown result) ≡ met_by (Some there) }
    ensures link { IfMeets result (λ link. there ≡ Some (link, Link)) }
{
    match there {
        None => Reached::Stops(Refusal::NotFound),
        Some((number, Kind::Dir)) => Reached::Dir(number),
        Some((number, Kind::File)) => Reached::File(number),
        Some((number, Kind::Link)) => Reached::Meets(number),
    }
}

/// From a place, one part on. The hash is of the question that it asks there, if it asks one.
// Inlined, as is all that a walk does for each part.
#[inline(always)]
pub(crate) fn step_on<F: Finder>(
    finder: &mut F,
    place: Target,
    part: Part<'_>,
    hash: u64,
) -> Result<Reached, F::Stop>
    requires hash { hash ≡ hash_of place.0 (bytes_of (part_shown part)) }
    requires may { IsTrue (asks place (part_shown part)) →
        F.may_ask finder.old place.0 (label_of (part_shown part)) }
    requires spend { MaySpend F.Finder finder.old (length (bytes_of (part_shown part))) }
    ensures leads { IfOk result (Leads (F.said finder.new) place (part_shown part.entry)) }
    ensures link { IfOk result (IsSaidMet (F.said finder.new)) }
    ensures left { IfOk result (λ reached. Spends F.Finder finder.old finder.new
        (length (bytes_of (part_shown part.entry))) 0) }
    ensures kept { KeepsAnswering F.Finder finder.old finder.new result }
{
    // The part is looked at first (measured): what it is was just found out.
    let is_below = is_directory(place);
    match part {
        Part::Dot if is_below => Ok(Reached::Dir(place.0)),
        Part::DotDot if is_below && place.0 == ROOT.0 => Ok(Reached::Dir(place.0)),
        Part::DotDot | Part::Normal(_) if is_below => {
            Ok(on_to(finder.find_hashed(place.0, part, hash)?))
        }
        Part::Dot | Part::DotDot | Part::Normal(_) => Ok(Reached::Stops(Refusal::NotDirectory)),
    }
}

/// Where a resolution ends that has no part left. The slow machine of `dc_plain` has its own.
pub(crate) fn ending(follow: Follow, place: Target, slash: bool) -> Walked
    ensures { outcome_shown result ≡ ending follow place slash }
{
    if (slash || follow == Follow::Dir) && !is_directory(place) {
        Walked::Refused(Refusal::NotDirectory)
    } else {
        Walked::Found(place)
    }
}

/// Whether a resolution ends at a link. `is_last` says that nothing is left after it. The slow machine of
/// `dc_plain` has its own.
// Inlined, as is all that a walk does for each part.
#[inline(always)]
pub(crate) fn is_kept(follow: Follow, is_last: bool, slash: bool) -> bool
    ensures { result ≡ (is_last && not slash && keeps_link follow) }
{
    is_last && !slash && follow == Follow::No
}
