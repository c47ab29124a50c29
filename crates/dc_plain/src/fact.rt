//! Facts apart from a tree, and what follows from them.

ghost use Rattle.std.specs.Prelude.{◌≡◌, ◌==◌, map, option_map, IfOk, Some, None};
ghost use Rattle.dc_names.specs.Paths.{path_in};
ghost use Rattle.dc_plain.specs.BytesShown.{text_shown};
ghost use Rattle.dc_plain.specs.Facts.{key_of, told_by, entry_told, text_told, same_label};
ghost use Rattle.dc_plain.specs.FactLaws.{outcome_answer};
ghost use Rattle.dc_plain.specs.FactsShown.{fact_shown};
ghost use Rattle.dc_plain.specs.KeysShown.{key_shown, label_shown};
ghost use Rattle.dc_plain.specs.Known.{answer_by};
ghost use Rattle.dc_plain.specs.Places.{walk};
ghost use Rattle.dc_plain.specs.Requests.{answer_of};
ghost use Rattle.dc_plain.specs.Walks.{walked_shown, EndsAs};

use crate::place::start_of;
use crate::resolve::{Walked, parts_in, resolve};
use crate::told::Told;
use crate::{Call, Follow, Key, Label, Reply, Target};
use dc_names::{Name, NoMemory, PathText, Refusal, parse};
use std::alloc::Global;

/// What a row of the cache may say.
#[derive(Clone, Copy)]
pub enum Fact<'a> {
    /// Where a name in a directory leads, or its dot-dot; `None` if no such entry is.
    Entry(u64, Label<'a>, Option<Target>),
    /// The text of a symbolic link.
    Text(u64, PathText<'a>),
}

impl<'a> Fact<'a> {
    /// What the fact speaks of.
    pub fn key(&self) -> Key<'a>
        ensures { key_shown result ≡ key_of (fact_shown self.now) }
    {
        match *self {
            Fact::Entry(number, label, _) => Key { number, label },
            Fact::Text(number, _) => Key {
                number,
                label: Label::Text,
            },
        }
    }
}

/// Whether two labels are one.
pub(crate) fn same_label(a: Label, b: Label) -> bool
    ensures { result ≡ same_label (label_shown a.entry) (label_shown b.entry) }
{
    match (a, b) {
        (Label::Name(a), Label::Name(b)) => a.bytes() == b.bytes(),
        (Label::DotDot, Label::DotDot) | (Label::Text, Label::Text) => true,
        _ => false,
    }
}

/// The target that the first fact of an entry says.
fn entry_in(facts: &[Fact], directory: u64, label: Label) -> Option<Option<Target>>
    ensures { result ≡ entry_told (map fact_shown facts.now) directory (label_shown label.entry) }
{
    for fact in facts {
        if let Fact::Entry(number, of, target) = *fact
            && number == directory
            && same_label(of, label)
        {
            return Some(target);
        }
    }
    None
}

/// The text that the first fact of a link says.
fn text_in<'a>(facts: &[Fact<'a>], link: u64) -> Option<PathText<'a>>
    ensures { text_shown result ≡ text_told (map fact_shown facts.now) link }
{
    for fact in facts {
        if let Fact::Text(number, text) = *fact
            && number == link
        {
            return Some(text);
        }
    }
    None
}

/// A list of facts as one who is asked.
#[derive(Drop)]
struct Facts<'a> {
    facts: &'a [Fact<'a>],
}

impl Told for Facts<'_> {
    ghost teller = { λ facts. told_by (map fact_shown facts.facts.now) };

    fn leads(&self, directory: u64, label: Label<'_>) -> Option<Option<Target>> {
        entry_in(self.facts, directory, label)
    }

    fn says(&self, link: u64) -> Option<PathText<'_>> {
        text_in(self.facts, link)
    }
}

/// Where a path leads by what is told, or `None` if a fact that is asked for isn't told.
fn walk_by<T: Told>(
    alloc: Global,
    told: &T,
    base: u64,
    path: PathText<'_>,
    follow: Follow,
) -> Result<Option<Walked>, NoMemory>
    ensures { IfOk result (EndsAs
        (walk (T.teller told.now) base (path_in path.entry.bytes.now) follow)) }
{
    let Some(start) = start_of(told, base, path) else {
        return Ok(None);
    };
    let Some(start) = start else {
        return Ok(Some(Walked::Refused(Refusal::NotFound)));
    };
    let parts = parts_in(alloc, path)?;
    resolve(alloc, told, start, parts, path.has_end_slash(), follow)
}

fn reply_by(walked: Walked) -> Reply
    ensures { answer_of result ≡ outcome_answer (walked_shown walked) }
{
    match walked {
        Walked::Found((number, kind)) => Reply::Found(number, kind),
        Walked::Refused(refusal) => Reply::Refused(refusal.number()),
    }
}

/// What the facts answer to a look-up: `None` if a fact that is asked for isn't among them, and
/// for every other call. Of two facts with one key the first counts. A text that is refused asks
/// for no fact.
pub fn answer(alloc: Global, facts: &[Fact], call: &Call) -> Result<Option<Reply>, NoMemory>
    ensures { IfOk result (λ reply. option_map answer_of reply ≡ answer_by facts.now call.now) }
{
    let Call::Look { base, path, follow } = *call else {
        return Ok(None);
    };
    match parse(path) {
        Ok(path) => Ok(walk_by(alloc, &Facts { facts }, base, path, follow)?.map(reply_by)),
        Err(fault) => Ok(Some(Reply::Refused(fault.number()))),
    }
}
