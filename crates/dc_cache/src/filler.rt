//! Fills the rows of a path, by the questions of a look-up.

ghost use Rattle.std.specs.Prelude.{◌≡◌, ◌≢◌, Some, IfSome};
ghost use Rattle.dc_cache.specs.Fillings.{Fills, KnowsTruth, fills_none, fills_more, fills_keep};
ghost use Rattle.dc_plain.specs.Facts.Label.{Text};
ghost use Rattle.dc_index.specs.Hashed.{key_in};
ghost use Rattle.dc_plain.specs.KeysShown.{key_shown};
ghost use Rattle.dc_plain.specs.Trees.{told_of};
ghost use Rattle.dc_rows.specs.Guards.{kept_by};
ghost use Rattle.dc_rows.specs.RowChanges.{LeadsTo};

use dc_index::HashedKey;
use dc_names::{Kind, Part, hash};
use dc_ops::StoreFinder;
use dc_plain::{Key, Label, Target};
use dc_resolve::{Bytes, Finder};
use dc_row::RowText;
use dc_rows::Guard;
use dc_walk::{Room, key_of};
use std::alloc::Global;

/// The text of a link, by value, as far as a row has room for it.
#[derive(Drop)]
pub(crate) struct ShortText {
    text: RowText,
}

impl Bytes for ShortText {
    ghost bytes = { λ link. link.text };

    fn bytes(&self) -> &[u8] {
        self.text.bytes()
    }
}

/// A link's text has no room in a row.
#[derive(Drop)]
pub(crate) struct NoRoom;

/// Answers the questions of a look-up from the tree, and fills the row of each. It stops at a link
/// whose text has no room in a row, since no look-up without the lock gets past that. If a walk by rows
/// has just given up, the rows in its room answer its questions again, in their order, if what they tell
/// is known to be true: the tree isn't asked for these then, nor are their rows filled.
pub(crate) struct Filler<'t> {
    pub guard: Guard<'t>,
    pub alloc: Global,
    /// The room of that walk, if what its rows tell is true.
    pub known: Option<&'t Room>,
    /// The row that answers the next question.
    pub next: usize,
}

impl Filler<'_> {
    /// Where a key's entry leads, by the next row, if this is known and tells of it.
    fn told(&mut self, key: Key<'_>) -> Option<Option<Target>>
        requires known { KnowsTruth self.old }
        requires entry { (key_shown key).label ≢ Text }
        ensures fills { Fills self.old self.new }
        ensures told { IfSome result (λ target. let key = key_shown key.entry in
            (told_of (kept_by self.old.guard).store).entry key.number key.label ≡ Some target) }
    {
        let room = self.known?;
        let target = room.told_at(self.next, key);
        // Each question has its row, in their order, but for a key that is asked for twice, after which
        // rows and questions no longer line up: `told_at` compares the key, so no other key's row answers.
        self.next = self.next.saturating_add(1);
        target
    }

    /// Fills the row of a key, if one can be had.
    fn fill(&mut self, key: &HashedKey<'_>)
        ensures fills { Fills self.old self.new }
    {
        // A row that can't be had is missed again by the next look-up, here and below.
        let _ = self.guard.fill(self.alloc, key);
    }

    /// Fills the row of an entry that leads there, if one can be had.
    fn fill_entry(&mut self, key: &HashedKey<'_>, target: Option<Target>)
        requires target { LeadsTo (kept_by self.old.guard).store (key_in key.now) target }
        ensures fills { Fills self.old self.new }
    {
        let _ = self.guard.fill_entry(self.alloc, key, target);
    }
}

impl Finder for Filler<'_> {
    type Text = ShortText;

    type Stop = NoRoom;

    ghost said = { λ f. told_of (kept_by f.guard).store };

    ghost becomes = { Fills };

    ghost stops = { λ f g why. Fills f g };

    ghost may_ask = { λ f number label. KnowsTruth f };

    ghost may_spend = { λ f n. Unit {0} };

    ghost link_bytes = { 0 };

    fn find(&mut self, dir: u64, part: Part<'_>) -> Result<Option<(u64, Kind)>, NoRoom> {
        let key = key_of(dir, part);
        self.find_hashed(dir, part, hash(dir, key.label.bytes()))
    }

    fn find_hashed(
        &mut self,
        dir: u64,
        part: Part<'_>,
        hash: u64,
    ) -> Result<Option<(u64, Kind)>, NoRoom> {
        let key = key_of(dir, part);
        // Of a dot-dot no row says that it leads to a directory: the tree does.
        if let Some(target) = self.told(key)
            && let Part::Normal(_) = part
        {
            return Ok(target);
        }
        let mut finder = StoreFinder {
            store: self.guard.store(),
        };
        let Ok(target) = finder.find_hashed(dir, part, hash);
        // The store's finder has no `Drop`, so it can't be let go, but is taken apart.
        let StoreFinder { store: _ } = finder;
        self.fill_entry(&HashedKey { key, hash }, target);
        Ok(target)
    }

    fn link_text(&mut self, number: u64) -> Result<ShortText, NoRoom> {
        self.fill(&HashedKey::new(Key {
            number,
            label: Label::Text,
        }));
        let mut finder = StoreFinder {
            store: self.guard.store(),
        };
        let Ok(told) = finder.link_text(number);
        // Taken apart, as it has no `Drop`.
        let StoreFinder { store: _ } = finder;
        let text = RowText::of(told).ok_or(NoRoom)?;
        Ok(ShortText { text })
    }

    ghost stays = { fills_none };

    ghost goes_on = { fills_more };

    ghost stops_later = { λ f g h why. fills_more f g h };

    ghost keeps = { fills_keep };

    ghost spends_less = { λ f a b may. may };
}
