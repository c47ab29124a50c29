//! The parts of bytes, taken one after the other. Each is split from them once, as it is asked for.

ghost use Rattle.std.specs.Prelude.{◌≡◌, ◌==◌, ◌&&◌, not, IfOk, IsTrue};
ghost use Rattle.std.specs.List.{list_any};
ghost use Rattle.dc_names.specs.Bytes.{has_parts, is_empty};
ghost use Rattle.dc_names.specs.Paths.{parts_of};
ghost use Rattle.dc_resolve.specs.Finders.{KeepsAnswering};
ghost use Rattle.dc_resolve.specs.Needs.{MayAskFirst};
ghost use Rattle.dc_resolve.specs.Spends.{met_bytes, names_bytes, MaySpend, Spends};
ghost use Rattle.dc_resolve.specs.Steps.{TakesFirst};

use crate::Finder;
use crate::outcome::Reached;
use crate::step::step_on;
use dc_names::first_part_hashed;
use dc_plain::Target;

/// Whether a part is left in some bytes: it looks no further than the first byte of it.
#[tactic(auto, using(crate::proofs::Fronts::beyond_slashes))]
pub(crate) fn has_part(bytes: &[u8]) -> bool
    ensures { result ≡ not (is_empty (parts_of bytes.now)) }
{
    is_beyond_slashes(bytes)
}

/// Whether a byte is no slash.
fn is_beyond_slashes(bytes: &[u8]) -> bool
    ensures { result ≡ list_any (λ b. not (b == 47)) bytes.now }
{
    bytes.iter().any(|b| *b != b'/')
}

/// Whether a resolution has no part left after what it came to: none in the bytes, and none below them.
// Inlined, as is all that a walk does for each part.
#[inline(always)]
pub(crate) fn is_end(rest: &[u8], is_last: bool) -> bool
    ensures { result ≡ (is_last && is_empty (parts_of rest.now)) }
{
    is_last && !has_part(rest)
}

/// Asks at the first part of some bytes, if there is one, and answers the bytes after it too.
// Inlined, so that the hash is taken while the end of the part is sought, or left out.
#[inline(always)]
pub(crate) fn ask_first<'b, F: Finder>(
    finder: &mut F,
    place: Target,
    bytes: &'b [u8],
) -> Result<Option<(Reached, &'b [u8])>, F::Stop>
    requires valid { IsTrue (has_parts bytes.now) }
    requires may { MayAskFirst (F.may_ask finder.old) place (parts_of bytes.now) }
    requires spend { MaySpend F.Finder finder.old (names_bytes (parts_of bytes.now)) }
    ensures taken { IfOk result (λ met. TakesFirst (F.said finder.new) place bytes.entry.now met) }
    ensures left { IfOk result (λ met. Spends F.Finder finder.old finder.new
        (names_bytes (parts_of bytes.entry.now)) (met_bytes met)) }
    ensures kept { KeepsAnswering F.Finder finder.old finder.new result }
{
    let Some((part, after, hash)) = first_part_hashed(place.0, bytes) else {
        return Ok(None);
    };
    Ok(Some((step_on(finder, place, part, hash)?, after)))
}
