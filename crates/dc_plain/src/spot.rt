//! A name in a directory, and the place of a path's last part.

ghost use Rattle.std.specs.Prelude.{◌≡◌};
ghost use Rattle.dc_plain.specs.KeysShown.{key_shown};
ghost use Rattle.dc_plain.specs.Spots.{spot_at, spot_shown};
ghost use Rattle.dc_plain.specs.TouchedKeys.{spot_key};

use crate::{Key, Label};
use dc_names::{Last, Name};

/// A name in a directory, whether an entry stands there or not.
#[derive(Clone, Copy, PartialEq, Eq)]
pub struct Spot<'a> {
    /// The directory's number.
    pub dir: u64,
    /// The name in it.
    pub name: Name<'a>,
}

impl<'a> From<Spot<'a>> for Key<'a> {
    ghost from_gives = { λ spot key. key_shown key ≡ spot_key (spot_shown spot) };

    fn from(spot: Spot<'a>) -> Key<'a> {
        Key {
            number: spot.dir,
            label: Label::Name(spot.name),
        }
    }
}

/// Where the last part of a path is to be looked up.
#[derive(Clone, Copy)]
pub struct Where<'a> {
    /// The number of the directory that the other parts lead to.
    pub dir: u64,
    /// The last part.
    pub last: Last<'a>,
    /// Whether a slash ends the path.
    pub slash: bool,
}

impl<'a> Where<'a> {
    /// A name in that directory.
    #[must_use]
    pub fn spot(self, name: Name<'a>) -> Spot<'a>
        ensures { spot_shown result ≡ spot_at self.entry.dir name.entry.bytes.now }
    {
        Spot {
            dir: self.dir,
            name,
        }
    }
}
