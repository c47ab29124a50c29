//! A key that is sought in rows.

ghost use Rattle.std.specs.Prelude.{◌≡◌};
ghost use Rattle.dc_index.specs.Slots.{key_hash};
ghost use Rattle.dc_plain.specs.KeysShown.{key_shown};
ghost use Rattle.dc_walk.specs.Probes.{SpellsShort};

use dc_plain::{Key, Label};
use dc_row::{SHORT_TEXT, SHORT_WORDS, short_words};

/// A key with its hash, and with the words that spell its name, if that is short.
#[derive(Clone, Copy)]
pub(crate) struct Sought<'a> {
    pub key: Key<'a>,
    pub hash: u64,
    pub short: [u64; SHORT_WORDS],
    ghost hashed: { hash ≡ key_hash (key_shown key) },
    ghost spelled: { SpellsShort short (key_shown key).label },
}

impl<'a> Sought<'a> {
    /// A key that has this hash.
    #[inline(always)]
    pub(crate) fn new(key: Key<'a>, hash: u64) -> Sought<'a>
        requires hash { hash ≡ key_hash (key_shown key) }
        ensures { result.key ≡ key.entry }
    {
        let short = words_of(key);
        Sought { key, hash, short }
    }
}

/// The words that spell a key's name, if it is short.
#[inline(always)]
fn words_of(key: Key<'_>) -> [u64; SHORT_WORDS]
    ensures { SpellsShort result (key_shown key.entry).label }
{
    match key.label {
        Label::Name(name) if name.bytes().len() <= SHORT_TEXT => short_words(name.bytes()),
        Label::Name(_) | Label::DotDot | Label::Text => [0; SHORT_WORDS],
    }
}
