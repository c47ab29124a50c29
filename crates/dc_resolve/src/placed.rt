//! Where the last part of a path is to be looked up.

ghost use Rattle.std.specs.Prelude.{◌+◌, ◌*◌, length, IfOk, IfSome};
ghost use Rattle.dc_names.specs.declared.limits.TheConstants.{MOST_LINKS};
ghost use Rattle.dc_plain.specs.Spots.{where_shown};
ghost use Rattle.dc_resolve.specs.Ends.{place_by, placed_shown, Stands};
ghost use Rattle.dc_resolve.specs.Finders.{KeepsAnswering};
ghost use Rattle.dc_resolve.specs.Fronts.{IsPlaceIn, LeadsToFront};
ghost use Rattle.dc_resolve.specs.Needs.{MayAsk};

use crate::front::split_last;
use crate::resolution::resolve_from;
use crate::{Finder, Walked};
use dc_names::{Last, PathText, Refusal};
use dc_plain::{Follow, ROOT, Where};

/// Where the last component of a path is to be looked up.
#[derive(Clone, Copy)]
pub enum Placed<'p> {
    /// The last component in its directory.
    At(Where<'p>),
    /// Why the others lead nowhere.
    Refused(Refusal),
}

/// The directory to which all components of a path but the last lead, and the last, which is neither
/// asked for nor followed. It is refused as by `walk`, and asks only for what its answer can't be told
/// without. An error says why the finder gave up.
pub fn place<'p, F: Finder>(
    finder: &mut F,
    base: u64,
    path: PathText<'p>,
) -> Result<Placed<'p>, F::Stop>
    requires may { MayAsk F.Finder finder.old (place_by base path.bytes.now) }
    // Two bytes are those of the dot-dot by which the starting directory is asked for.
    requires spend { F.may_spend finder.old
        (2 + length path.bytes.now + MOST_LINKS * F.link_bytes) }
    // Whatever else may be learnt later, the answer stays.
    ensures answer { IfOk result (λ placed. Stands (F.said finder.new)
        (place_by base path.entry.bytes.now) (placed_shown placed)) }
    ensures kept { KeepsAnswering F.Finder finder.old finder.new result }
{
    let Some((front, last)) = split_last(path.bytes()) else {
        return Ok(Placed::At(Where {
            dir: ROOT.0,
            last: Last::Root,
            slash: false,
        }));
    };
    match resolve_from(finder, base, path, front, false, Follow::Dir)? {
        Walked::Found((dir, _)) => Ok(Placed::At(Where {
            dir,
            last: Last::from(last),
            slash: path.has_end_slash(),
        })),
        Walked::Refused(refusal) => Ok(Placed::Refused(refusal)),
    }
}

/// Where the last component of a path is to be looked up, for a caller that knows where the bytes before
/// it lead: to this directory, from where the path starts, with every link followed and a directory
/// wanted. `None` if other bytes stand before it, or none.
#[must_use]
pub fn place_in<'p>(path: PathText<'p>, front: &[u8], dir: u64) -> Option<Where<'p>>
    ensures front { IfSome result (λ at. LeadsToFront front.now path.entry.bytes.now) }
    ensures place { IfSome result (λ at. IsPlaceIn dir path.entry.bytes.now (where_shown at)) }
{
    let (before, last) = split_last(path.bytes())?;
    if before.is_empty() || before != front {
        return None;
    }
    Some(Where {
        dir,
        last: Last::from(last),
        slash: path.has_end_slash(),
    })
}
