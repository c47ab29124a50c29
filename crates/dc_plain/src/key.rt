//! What facts are about: keys and their labels.

ghost use Rattle.std.specs.Prelude.{◌≡◌};
ghost use Rattle.dc_plain.specs.Facts.{label_bytes};
ghost use Rattle.dc_plain.specs.KeysShown.{key_shown, keys_in, label_shown};
ghost use Rattle.dc_plain.specs.TouchedKeys.{own_keys, parent_key};

use dc_names::{Kind, Name};

/// What is asked of an inode.
#[derive(Clone, Copy, PartialEq, Eq)]
pub enum Label<'a> {
    /// The entry of this name in a directory.
    Name(Name<'a>),
    /// The entry dot-dot of a directory.
    DotDot,
    /// The text of a symbolic link.
    Text,
}

impl<'a> Label<'a> {
    /// The bytes that stand for a label in a row and in a hash: the name, two dots, or none for a
    /// text.
    #[must_use]
    pub fn bytes(&self) -> &'a [u8]
        ensures { result.now ≡ label_bytes (label_shown self.now) }
    {
        match self {
            Label::Name(name) => name.bytes(),
            Label::DotDot => b"..",
            Label::Text => b"",
        }
    }
}

/// What a row of the cache tells of: an entry, a dot-dot or a link's text, of the inode of a
/// number.
#[derive(Clone, Copy)]
pub struct Key<'a> {
    /// The inode's number.
    pub number: u64,
    /// What is asked of it.
    pub label: Label<'a>,
}

impl<'a> Key<'a> {
    /// The key that an inode has of its own: a directory its dot-dot, a link its text, and a
    /// regular file none.
    #[must_use]
    pub fn own(number: u64, kind: Kind) -> Option<Key<'a>>
        ensures { keys_in result ≡ own_keys number kind }
    {
        let label = match kind {
            Kind::Dir => Label::DotDot,
            Kind::File => return None,
            Kind::Link => Label::Text,
        };
        Some(Key { number, label })
    }
}

impl Default for Key<'_> {
    ghost is_default = { λ key. key_shown key ≡ parent_key 0 };

    /// The key that fills an array's unused room: no inode has the number 0.
    fn default() -> Self {
        Key {
            number: 0,
            label: Label::DotDot,
        }
    }
}
