//! The last part of a path, and the name that a call wants there.

ghost use Rattle.std.specs.Prelude.{◌≡◌};
ghost use Rattle.dc_names.specs.Names.{part_shown};
ghost use Rattle.dc_names.specs.Refusals.{Gives};
ghost use Rattle.dc_names.specs.Lasts.{last_part, last_shown, name_or, name_or_each};

use crate::{Name, Part, Refusal};

/// The last part of a path, of which a path of slashes alone has none.
#[derive(Clone, Copy, Debug, PartialEq, Eq)]
pub enum Last<'a> {
    /// No part: the path leads to the root.
    Root,
    /// `.`, the directory itself.
    Dot,
    /// `..`, the parent directory.
    DotDot,
    /// The name of an entry.
    Normal(Name<'a>),
}

impl<'a> From<Part<'a>> for Last<'a> {
    ghost from_gives = { λ part last. last_shown last ≡ last_part (part_shown part) };

    fn from(part: Part<'a>) -> Last<'a> {
        match part {
            Part::Normal(name) => Last::Normal(name),
            Part::Dot => Last::Dot,
            Part::DotDot => Last::DotDot,
        }
    }
}

impl<'a> Last<'a> {
    /// The name, or else this refusal.
    pub fn name_or(self, refusal: Refusal) -> Result<Name<'a>, Refusal>
        ensures { Gives result (λ name. name.bytes.now)
            (name_or refusal (last_shown self.entry)) }
    {
        self.name_or_each(refusal, refusal, refusal)
    }

    /// The name, or else the refusal for the root, for dot or for dot-dot.
    pub fn name_or_each(
        self,
        root: Refusal,
        dot: Refusal,
        dot_dot: Refusal,
    ) -> Result<Name<'a>, Refusal>
        ensures { Gives result (λ name. name.bytes.now)
            (name_or_each root dot dot_dot (last_shown self.entry)) }
    {
        match self {
            Last::Normal(name) => Ok(name),
            Last::Root => Err(root),
            Last::Dot => Err(dot),
            Last::DotDot => Err(dot_dot),
        }
    }
}
