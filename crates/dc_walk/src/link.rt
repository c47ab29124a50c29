//! The text of a link that a walk follows, copied out of the row that spells it.

ghost use Rattle.std.specs.Prelude.{◌≤◌, Some, length};
ghost use Rattle.dc_row.specs.Narrow.{widened};
ghost use Rattle.dc_row.specs.Spelling.{SpellsText, TellsText};
ghost use Rattle.dc_names.specs.declared.limits.TheConstants.{ROW_WORDS};
ghost use Rattle.dc_row.specs.declared.layout.TheConstants.{TEXT_START};

use dc_resolve::Bytes;
use dc_row::{RowText, spelled_text};

/// The text of a link, by value, since it is followed after other rows were used.
#[derive(Drop)]
pub(crate) struct LinkText {
    text: RowText,
}

impl LinkText {
    /// The text that a row with these first words spells, which were tested before.
    #[inline(always)]
    pub(crate) fn of(words: &[u64]) -> LinkText
        requires size { (TEXT_START ≤ length words.now) × (length words.now ≤ ROW_WORDS) }
        requires spelled { SpellsText (widened words.now) }
        ensures told { TellsText (widened words.now) (Some result.text) }
    {
        LinkText {
            text: spelled_text(words),
        }
    }
}

impl Bytes for LinkText {
    ghost bytes = { λ link. link.text };

    #[inline(always)]
    fn bytes(&self) -> &[u8] {
        self.text.bytes()
    }
}
