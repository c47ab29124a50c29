//! Where parts lead, one after the other, and links with them. The crates of the cache have code of their own for
//! it (`dc_resolve`), on purpose: a mistake in one of the two isn't one of both.

ghost use Rattle.std.specs.Prelude.{◌≡◌, Some, map, option_map, not, ◌&&◌, ◌||◌, if◌then◌else◌, ◌++◌, IfOk, OnOk};
ghost use Rattle.dc_names.specs.Names.{part_shown};
ghost use Rattle.dc_names.specs.Paths.{parts_of, has_end_slash, begins_with_slash};
ghost use Rattle.dc_plain.specs.Resolution.{root, settled_walk, at_part, met_by, keeps_link, wants_directory, ending};
ghost use Rattle.dc_plain.specs.Walks.{met_shown, outcome_from, stacked, walked_shown, EndsAs, StepsOver};

use crate::told::Told;
use crate::{Follow, Label, MOST_LINKS, ROOT, Target, is_directory};
use dc_names::{Kind, NoMemory, Part, PathText, Refusal};
use std::alloc::Global;

/// Where a walk ends.
#[derive(Drop)]
pub(crate) enum Walked {
    Found(Target),
    Refused(Refusal),
}

/// A walk over parts, up to its end, to what isn't told, or to a link that must be followed.
enum Step {
    Ended(Option<Walked>),
    AtLink(Target, u64),
}

fn keeps_link(follow: Follow) -> bool
    ensures { result ≡ keeps_link follow }
{
    matches!(follow, Follow::No)
}

fn wants_directory(follow: Follow) -> bool
    ensures { result ≡ wants_directory follow }
{
    matches!(follow, Follow::Dir)
}

/// What a part leads to.
enum Reached {
    Goes(Target),
    Stops(Refusal),
    Meets(Target),
}

fn on_to(there: Option<Target>) -> Reached
    ensures { Some (met_shown result) ≡ met_by (Some (there)) }
{
    let Some(spot) = there else {
        return Reached::Stops(Refusal::NotFound);
    };
    match spot.1 {
        Kind::Link => Reached::Meets(spot),
        Kind::Dir | Kind::File => Reached::Goes(spot),
    }
}

/// From a place, one part on: `None` if that isn't told.
fn at_part<T: Told>(told: &T, place: Target, part: Part) -> Option<Reached>
    ensures { option_map met_shown result
        ≡ at_part (T.teller told.now) place (part_shown part.entry) }
{
    if !is_directory(place) {
        return Some(Reached::Stops(Refusal::NotDirectory));
    }
    match part {
        Part::Dot => Some(Reached::Goes(place)),
        Part::Normal(name) => Some(on_to(told.leads(place.0, Label::Name(name))?)),
        Part::DotDot if place.0 == 1 => Some(Reached::Goes(place)),
        Part::DotDot => Some(on_to(told.leads(place.0, Label::DotDot)?)),
    }
}

/// Where a walk ends that has no part left.
fn ending(follow: Follow, place: Target, slash: bool) -> Walked
    ensures { walked_shown result ≡ ending follow place slash }
{
    if (slash || wants_directory(follow)) && !is_directory(place) {
        Walked::Refused(Refusal::NotDirectory)
    } else {
        Walked::Found(place)
    }
}

/// Whether a walk ends at a link.
fn is_kept(follow: Follow, is_last: bool, slash: bool) -> bool
    ensures { result ≡ (is_last && not slash && keeps_link follow) }
{
    is_last && !slash && keeps_link(follow)
}

/// Goes over the parts on the stack, of which the last comes first.
#[tactic(auto, using(crate::proofs::Stacks::walk_steps))]
fn walk_parts<T: Told>(
    told: &T,
    start: Target,
    rest: &mut Vec<Part>,
    slash: bool,
    follow: Follow,
) -> Step
    ensures { StepsOver (T.teller told.now) follow start slash
        rest.old.items rest.new.items result }
{
    let mut place = start;
    'parts: while let Some(part) = rest.pop() {
        let Some(reached) = at_part(told, place, part) else {
            return Step::Ended(None);
        };
        match reached {
            Reached::Goes(next) => place = next,
            Reached::Stops(refusal) => return Step::Ended(Some(Walked::Refused(refusal))),
            Reached::Meets(link) => {
                if is_kept(follow, rest.is_empty(), slash) {
                    return Step::Ended(Some(Walked::Found(link)));
                }
                return Step::AtLink(place, link.0);
            }
        }
    }
    Step::Ended(Some(ending(follow, place, slash)))
}

/// The parts of a path, from first to last.
pub(crate) fn parts_in(alloc: Global, path: PathText<'_>) -> Result<Vec<Part<'_>>, NoMemory>
    ensures { IfOk result (λ parts. map part_shown parts.items ≡ parts_of path.entry.bytes.now) }
{
    Ok(path.components().collect(alloc)?)
}

/// Puts parts on the stack, the first of them on its top.
fn push_parts<'a>(rest: &mut Vec<Part<'a>>, parts: Vec<Part<'a>>) -> Result<(), NoMemory>
    ensures { OnOk result (stacked rest.new.items
        ≡ map part_shown parts.entry.items ++ stacked rest.old.items) }
{
    let mut left = parts;
    'left: while let Some(part) = left.pop() {
        rest.push(part)?;
    }
    Ok(())
}

/// Puts the parts of a link's text on the stack.
fn push_text<'a>(
    alloc: Global,
    rest: &mut Vec<Part<'a>>,
    text: PathText<'a>,
) -> Result<(), NoMemory>
    ensures { OnOk result (stacked rest.new.items
        ≡ parts_of text.entry.bytes.now ++ stacked rest.old.items) }
{
    push_parts(rest, parts_in(alloc, text)?)
}

/// Whether a slash ends a path whose link was replaced by a text.
fn slash_after(slash: bool, is_last: bool, text: PathText) -> bool
    ensures { result ≡ (slash || is_last && has_end_slash text.entry.bytes.now) }
{
    slash || is_last && text.has_end_slash()
}

/// Where a text begins that replaces a link in a directory.
fn base_of(text: PathText, at: Target) -> Target
    ensures { result ≡ (if begins_with_slash text.entry.bytes.now then root else at) }
{
    if text.is_absolute() { ROOT } else { at }
}

/// Where parts lead from a place, or `None` if that isn't told. Links are followed.
pub(crate) fn resolve<'a, T: Told>(
    alloc: Global,
    told: &'a T,
    start: Target,
    parts: Vec<Part<'a>>,
    slash: bool,
    follow: Follow,
) -> Result<Option<Walked>, NoMemory>
    ensures { IfOk result (EndsAs
        (outcome_from (T.teller told.now) follow start parts.entry.items slash)) }
{
    let mut rest = Vec::new(alloc);
    push_parts(&mut rest, parts)?;
    let mut place = start;
    let mut slash = slash;
    let mut links = MOST_LINKS;
    'links: loop {
        match walk_parts(told, place, &mut rest, slash, follow) {
            Step::Ended(walked) => return Ok(walked),
            Step::AtLink(at, link) => {
                if links == 0 {
                    return Ok(Some(Walked::Refused(Refusal::TooManyLinks)));
                }
                let Some(text) = told.says(link) else {
                    return Ok(None);
                };
                links -= 1;
                slash = slash_after(slash, rest.is_empty(), text);
                place = base_of(text, at);
                push_text(alloc, &mut rest, text)?;
            }
        }
    }
}

/// Where a walk ends on a tree, which answers every question.
pub(crate) fn settled(walked: Option<Walked>) -> Walked
    ensures { walked_shown result ≡ settled_walk (option_map walked_shown walked) }
{
    walked.unwrap_or(Walked::Refused(Refusal::NotFound))
}
