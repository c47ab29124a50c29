//! Those who are asked where entries lead and what links say.

ghost use Rattle.std.specs.Prelude.{◌≡◌, option_map};
ghost use Rattle.dc_plain.specs.Facts.{Teller};
ghost use Rattle.dc_plain.specs.KeysShown.{label_shown};
ghost use Rattle.dc_plain.specs.Trees.{told_of};

use crate::{Label, PlainTree, Target};
use dc_names::PathText;

/// One who is asked. `None` is no answer; an entry that isn't there is `Some(None)`.
pub(crate) trait Told {
    /// All that it answers.
    ghost teller: { Self → Teller };

    /// Where an entry or a dot-dot of a directory leads.
    fn leads(&self, directory: u64, label: Label<'_>) -> Option<Option<Target>>
        ensures { result ≡ (teller self.now).entry directory (label_shown label.entry) };

    /// The text of a link.
    fn says(&self, link: u64) -> Option<PathText<'_>>
        ensures { option_map (λ text. text.bytes.now) result ≡ (teller self.now).text link };
}

impl Told for PlainTree {
    ghost teller = { λ machine. told_of machine.tree };

    fn leads(&self, directory: u64, label: Label<'_>) -> Option<Option<Target>> {
        Some(match label {
            Label::Name(name) => self.entry(directory, name.bytes()),
            Label::DotDot => self.parent(directory),
            Label::Text => None,
        })
    }

    fn says(&self, link: u64) -> Option<PathText<'_>> {
        self.text(link)
    }
}
