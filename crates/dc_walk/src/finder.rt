//! Rows as a finder: a walk over paths asks them, through the source that has them.

ghost use Rattle.std.specs.Prelude.{◌≡◌, ◌*◌, None};
ghost use Rattle.std.proofs.Common.{refl, ◌∙◌};
ghost use Rattle.dc_table.specs.Holders.{table_of};
ghost use Rattle.dc_walk.specs.Becomings.{Becomes, KeepsPinned, MayAskRows, Stops, stays_so, goes_so, stops_so, keeps_so};
ghost use Rattle.dc_walk.specs.Findings.{said_in};
ghost use Rattle.dc_walk.specs.Rooms.{less_words, HasWords};
ghost use Rattle.dc_names.specs.declared.limits.TheConstants.{ROW_TEXT};

use crate::link::LinkText;
use crate::question::{key_of, text_key, told};
use crate::rows::{Rows, Stop};
use crate::source::Source;
use dc_names::{Kind, Part, hash};
use dc_resolve::Finder;

/// Answers the questions of a look-up by the rows of a source.
#[derive(Drop)]
pub(crate) struct Walker<'a, S> {
    pub source: &'a S,
    pub rows: Rows<'a>,
}

impl<'a, S: Source> Finder for Walker<'a, S> {
    type Text = LinkText;

    type Stop = Stop;

    ghost said = { λ f. said_in f.rows };

    ghost becomes = { λ f g. (g.source ≡ f.source) × Becomes S.locks f.rows g.rows
        × KeepsPinned S.locks f.rows g.rows None };

    ghost stops = { λ f g stop. Stops S.locks f.rows g.rows stop
        × KeepsPinned S.locks f.rows g.rows stop.spare };

    ghost may_ask = { λ f n label. S.serves f.source.now (table_of f.rows.reader)
        × MayAskRows f.rows n label };

    ghost may_spend = { λ f n. HasWords f.rows.used.now n };

    ghost link_bytes = { 2 * ROW_TEXT };

    fn find(&mut self, dir: u64, part: Part<'_>) -> Result<Option<(u64, Kind)>, Stop> {
        let key = key_of(dir, part);
        self.find_hashed(dir, part, hash(dir, key.label.bytes()))
    }

    #[inline(always)]
    fn find_hashed(
        &mut self,
        dir: u64,
        part: Part<'_>,
        hash: u64,
    ) -> Result<Option<(u64, Kind)>, Stop> {
        let key = key_of(dir, part);
        let place = told(self.source, &mut self.rows, key, hash)?;
        Ok(self.rows.target_at(place))
    }

    // Kept out of line: each link that is open has a frame, and inlined it would have this one's room too.
    #[inline(never)]
    fn link_text(&mut self, number: u64) -> Result<LinkText, Stop> {
        let key = text_key(number);
        let hash = hash(number, key.label.bytes());
        let at = told(self.source, &mut self.rows, key, hash)?;
        Ok(self.rows.text_at(at))
    }

    ghost stays = { λ f. (refl, stays_so S.locks f.rows, λ locks before is. is) };

    ghost goes_on = { λ f g h a b. (
      b.0 ∙ a.0,
      goes_so S.locks f.rows g.rows h.rows a.1 b.1,
      λ locks before is. b.2 locks before (a.2 locks before is),
    ) };

    ghost stops_later = { λ f g h stop a b. (
      stops_so S.locks f.rows g.rows h.rows stop a.1 b.0,
      λ locks before is. b.1 locks before (a.2 locks before is),
    ) };

    ghost spends_less = { λ f a b has. less_words f.rows.used.now a b has };

    ghost keeps = { λ f g b. keeps_so S.locks f.rows g.rows b.1 };
}
