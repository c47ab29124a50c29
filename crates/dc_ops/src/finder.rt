//! A store as a finder: it answers the questions of a walk, and never gives up.

ghost use Rattle.std.specs.Prelude.{◌≡◌, ◌≤◌, refl, Some, option_map, IfSome, IsTrue};
ghost use Rattle.dc_plain.specs.Facts.Label.{Entry, Parent};
ghost use Rattle.dc_plain.specs.IsWellFormed.{IsWellFormed};
ghost use Rattle.dc_plain.specs.Trees.{told_of, entry_of, target_at, names_of};
ghost use Rattle.dc_names.specs.Paths.Part.{DotDot};
ghost use Rattle.dc_resolve.specs.Asked.{may_be_found};
ghost use Rattle.dc_ops.specs.Found.{number_at};
ghost use Rattle.dc_ops.specs.Same.{one_after, same_tells};

use dc_names::{Kind, Name, Part};
use dc_plain::{Target, names_lead_to_the_living};
use dc_resolve::Finder;
use dc_store::Store;
use std::convert::Infallible;

/// Answers the questions of a walk from a store.
pub struct StoreFinder<'a, S: Store> {
    pub store: &'a S,
}

/// Where a name in a directory leads.
pub(crate) fn entry<S: Store>(store: &S, dir: u64, name: Name<'_>) -> Option<Target>
    ensures found { result ≡ entry_of (S.tree store.now) dir (Entry name.entry.bytes.now) }
    ensures target { option_map (λ target. target.0) result
        ≡ number_at (S.tree store.now) dir name.entry }
    ensures lives { IfSome result (λ target. target_at (S.tree store.now) target.0 ≡ Some target) }
    ensures named { IfSome result (λ target. 1 ≤ names_of (S.tree store.now) target.0) }
    ensures well { IsWellFormed (S.tree store.now) }
{
    names_lead_to_the_living();
    let number = store.find(dir, name)?;
    let kind = store.kind(number)?;
    Some((number, kind))
}

/// The directory that a directory's dot-dot leads to.
fn up<S: Store>(store: &S, dir: u64) -> Option<Target>
    ensures up { result ≡ entry_of (S.tree store.now) dir Parent }
    ensures directory { IsTrue (may_be_found DotDot result) }
{
    let number = store.parent(dir)?;
    Some((number, Kind::Dir))
}

impl<'a, S: Store> Finder for StoreFinder<'a, S> {
    type Text = &'a [u8];

    // It has an answer to each question.
    type Stop = Infallible;

    ghost said = { λ finder. told_of (S.tree finder.store.now) };

    ghost becomes = { λ f g. S.tree g.store.now ≡ S.tree f.store.now };

    ghost stops = { λ f g why. ⊥ };

    ghost may_ask = { λ finder number label. Unit {0} };

    ghost may_spend = { λ f n. Unit {0} };

    ghost link_bytes = { 0 };

    fn find(&mut self, dir: u64, part: Part<'_>) -> Result<Option<Target>, Infallible> {
        match part {
            Part::Normal(name) => Ok(entry(self.store, dir, name)),
            Part::DotDot => Ok(up(self.store, dir)),
            // A walk stays where it is at a dot, and asks nothing: `is_asked` says so.
            Part::Dot => unreachable!(),
        }
    }

    fn link_text(&mut self, number: u64) -> Result<&'a [u8], Infallible> {
        match self.store.text(number) {
            Some(text) => Ok(text),
            // A walk asks only for a link that it was told of, and the store is the same still.
            None => unreachable!(),
        }
    }

    ghost stays = { λ f. refl };

    ghost goes_on = { λ f g h p q. one_after (S.tree f.store.now) (S.tree g.store.now) (S.tree h.store.now) p q };

    ghost stops_later = { λ f g h why p stopped. stopped };

    ghost keeps = { λ f g p. same_tells (S.tree f.store.now) (S.tree g.store.now) p };

    ghost spends_less = { λ f a b may. may };
}
