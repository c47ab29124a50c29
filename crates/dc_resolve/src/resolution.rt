//! A whole resolution: part after part, link after link.

ghost use Rattle.std.specs.Prelude.{◌≡◌, ◌≤◌, ◌+◌, ◌*◌, ◌||◌, ◌&&◌, ◌==◌, [], false, Some, IfOk, IsTrue, if◌then◌else◌};
ghost use Rattle.dc_names.specs.Bytes.{has_parts};
ghost use Rattle.dc_names.specs.Paths.{begins_with_slash, has_end_slash, parts_of, path_in};
ghost use Rattle.dc_plain.specs.Facts.{Teller};
ghost use Rattle.dc_plain.specs.Facts.Label.{Parent};
ghost use Rattle.dc_plain.specs.Places.{start};
ghost use Rattle.dc_plain.specs.Resolution.{root};
ghost use Rattle.dc_resolve.specs.Asked.{IsSaidLink};
ghost use Rattle.dc_resolve.specs.Ends.{resolve_by};
ghost use Rattle.dc_resolve.specs.Finders.{KeepsAnswering};
ghost use Rattle.dc_resolve.specs.Needs.{MayAsk, MayAskOver, MayAskThrough};
ghost use Rattle.dc_resolve.specs.Resolves.{resolve_at, ResolvesTo};
ghost use Rattle.dc_resolve.specs.Spends.{way_bytes, LeavesLinks, MaySpend, Spends};
ghost use Rattle.dc_resolve.specs.Walks.{IfThrough, LeadsOver, LeadsThrough, LeadsTo};

use crate::outcome::{Reached, Way};
use crate::parts::{ask_first, is_end};
use crate::step::{ending, is_kept};
use crate::{Bytes, Finder, Walked};
use dc_names::{Kind, MOST_LINKS, Part, PathText, Refusal};
use dc_plain::{Follow, ROOT, Target};

// `slash_after`, `base_of`, and in `step` `on_to`, `ending`, `is_kept` stand in `dc_plain` once more: its slow
// machine answers by code of its own, so that a mistake in one of the two is no mistake of both.

/// Whether a slash ends a path whose link was replaced by a text.
fn slash_after(slash: bool, is_last: bool, text: PathText<'_>) -> bool
    ensures { result ≡ (slash || is_last && has_end_slash text.entry.bytes.now) }
{
    slash || is_last && text.has_end_slash()
}

/// Where a text begins that replaces a link in a directory.
fn base_of(text: PathText<'_>, at: Target) -> Target
    ensures { result ≡ (if begins_with_slash text.entry.bytes.now then root else at) }
{
    if text.is_absolute() { ROOT } else { at }
}

/// Where a walk goes on that has gone over all of some bytes: below them, or nowhere if nothing is.
fn at_end(place: Target, links: u64, is_last: bool, slash: bool, follow: Follow) -> Way
    ensures leads { (said : Teller) →
        LeadsOver said follow links slash place [] is_last result }
    ensures through { IfThrough result (λ left. (is_last ≡ false) × (left ≤ links)) }
    ensures left { IfThrough result (λ left. left ≡ links) }
{
    if is_last {
        Way::Ended(ending(follow, place, slash))
    } else {
        Way::Through(place, links)
    }
}

/// Goes over some bytes, part after part, up to the end of the resolution or of the bytes. `is_last` says
/// that nothing is left below them, and `links` how many links may be followed.
// Inlined (measured): a look-up without a link is then one function, with no arguments to hand over.
#[inline(always)]
#[cycle(over_links)]
fn walk_bytes<F: Finder>(
    finder: &mut F,
    start: Target,
    bytes: &[u8],
    is_last: bool,
    slash: bool,
    follow: Follow,
    links: u64,
) -> Result<Way, F::Stop>
    requires valid { IsTrue (has_parts bytes.now) }
    requires may { MayAskOver F.Finder finder.old follow links slash start bytes.now is_last }
    requires spend { MaySpend F.Finder finder.old (way_bytes F.Finder bytes.now links) }
    ensures leads { IfOk result (LeadsOver (F.said finder.new) follow links slash
        start bytes.entry.now is_last) }
    ensures through { IfOk result (λ way.
        IfThrough way (λ left. (is_last ≡ false) × (left ≤ links))) }
    ensures left { IfOk result (LeavesLinks F.Finder finder.old finder.new
        (way_bytes F.Finder bytes.entry.now links)) }
    ensures kept { KeepsAnswering F.Finder finder.old finder.new result }
{
    let mut place = start;
    let mut rest = bytes;
    let mut left = links;
    'parts: loop {
        let Some((reached, more)) = ask_first(finder, place, rest)? else {
            return Ok(at_end(place, left, is_last, slash, follow));
        };
        rest = more;
        match reached {
            Reached::Dir(number) => place = (number, Kind::Dir),
            Reached::File(number) => place = (number, Kind::File),
            Reached::Stops(refusal) => return Ok(Way::Ended(Walked::Refused(refusal))),
            Reached::Meets(link) => {
                // Only at a link does it matter whether it is the last, so only here it is looked for.
                let is_last = is_end(rest, is_last);
                match walk_link(finder, place, link, is_last, slash, follow, left)? {
                    Way::Ended(end) => return Ok(Way::Ended(end)),
                    Way::Through(next, fewer) => {
                        place = next;
                        left = fewer;
                    }
                }
            }
        }
    }
}

/// Goes over the text of a link in a directory, in place of the link, unless the resolution ends at the
/// link. `is_last` says that nothing is left below it, and `links` how many links may be followed, with
/// this one.
///
/// A text may have links too, or the link itself: with each that is followed one less may be, so no more
/// than `MOST_LINKS` texts are gone over one within another.
// A call of its own, which has a loop over the text's parts inside: the loop over the path's parts is inlined.
#[inline(never)]
#[cycle(over_links)]
fn walk_link<F: Finder>(
    finder: &mut F,
    at: Target,
    link: u64,
    is_last: bool,
    slash: bool,
    follow: Follow,
    links: u64,
) -> Result<Way, F::Stop>
    requires link { IsSaidLink (F.said finder.old) link }
    requires may { MayAskThrough F.Finder finder.old follow links slash at link is_last }
    requires spend { MaySpend F.Finder finder.old (links * F.link_bytes) }
    ensures leads { IfOk result (LeadsThrough (F.said finder.new) follow links slash
        at link is_last) }
    ensures through { IfOk result (λ way.
        IfThrough way (λ left. (is_last ≡ false) × (left ≤ links))) }
    ensures left { IfOk result (LeavesLinks F.Finder finder.old finder.new (links * F.link_bytes)) }
    ensures kept { KeepsAnswering F.Finder finder.old finder.new result }
{
    if is_kept(follow, is_last, slash) {
        return Ok(Way::Ended(Walked::Found((link, Kind::Link))));
    }
    if links == 0 {
        return Ok(Way::Ended(Walked::Refused(Refusal::TooManyLinks)));
    }
    let text = finder.link_text(link)?;
    let path = PathText::known(text.bytes());
    let base = base_of(path, at);
    let ends = slash_after(slash, is_last, path);
    walk_bytes(finder, base, path.bytes(), is_last, ends, follow, links - 1)
}

/// Where the parts of some bytes lead from a place.
// Inlined, as the other steps of a walk: it has one caller.
#[inline(always)]
fn resolve<F: Finder>(
    finder: &mut F,
    place: Target,
    parts: &[u8],
    slash: bool,
    follow: Follow,
) -> Result<Walked, F::Stop>
    requires valid { IsTrue (has_parts parts.now) }
    requires may { MayAsk F.Finder finder.old (resolve_at follow place parts.now slash) }
    requires spend { MaySpend F.Finder finder.old (way_bytes F.Finder parts.now MOST_LINKS) }
    ensures leads { IfOk result (LeadsTo (F.said finder.new) follow MOST_LINKS
        place (parts_of parts.entry.now) slash) }
    ensures kept { KeepsAnswering F.Finder finder.old finder.new result }
{
    match walk_bytes(finder, place, parts, true, slash, follow, MOST_LINKS)? {
        Way::Ended(end) => Ok(end),
        // Nothing is left below the parts, so a walk over them comes to the end of the resolution.
        Way::Through(_, _) => unreachable!(),
    }
}

/// Where a path begins, if its starting directory is live.
// Inlined: it has one caller, and mostly tests one byte.
#[inline(always)]
fn start<F: Finder>(
    finder: &mut F,
    base: u64,
    path: PathText<'_>,
) -> Result<Option<Target>, F::Stop>
    requires may { (begins_with_slash path.bytes.now || base == 1) ≡ false →
        F.may_ask finder.old base Parent }
    requires spend { MaySpend F.Finder finder.old 2 }
    ensures start { IfOk result (λ found.
        start (F.said finder.new) base (path_in path.entry.bytes.now) ≡ Some found) }
    ensures left { IfOk result (λ found. Spends F.Finder finder.old finder.new 2 0) }
    ensures kept { KeepsAnswering F.Finder finder.old finder.new result }
{
    if path.is_absolute() || base == ROOT.0 {
        return Ok(Some(ROOT));
    }
    match finder.find(base, Part::DotDot)? {
        Some(_) => Ok(Some((base, Kind::Dir))),
        None => Ok(None),
    }
}

/// Where the parts of some bytes lead from where a path begins.
// Inlined into `walk` and `place`, so that each finder has one loop of its own.
#[inline(always)]
pub(crate) fn resolve_from<F: Finder>(
    finder: &mut F,
    base: u64,
    path: PathText<'_>,
    parts: &[u8],
    slash: bool,
    follow: Follow,
) -> Result<Walked, F::Stop>
    requires valid { IsTrue (has_parts parts.now) }
    requires may { MayAsk F.Finder finder.old
        (resolve_by base path.bytes.now parts.now slash follow) }
    requires spend { MaySpend F.Finder finder.old (2 + way_bytes F.Finder parts.now MOST_LINKS) }
    ensures ends { IfOk result (ResolvesTo (F.said finder.new) base
        path.entry.bytes.now parts.entry.now slash follow) }
    ensures kept { KeepsAnswering F.Finder finder.old finder.new result }
{
    match start(finder, base, path)? {
        Some(place) => resolve(finder, place, parts, slash, follow),
        None => Ok(Walked::Refused(Refusal::NotFound)),
    }
}
