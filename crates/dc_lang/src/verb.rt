//! The texts of verbs, and how many words follow each.

ghost use Rattle.std.specs.Prelude.{◌≡◌};
ghost use Rattle.dc_lang.specs.Commands.{flags_in, flags_stand, verb_text, word_count};
ghost use Rattle.dc_lang.specs.Reading.{verb_in};
ghost use Rattle.dc_lang.specs.Words.{bytes_of};

use crate::Verb;
use dc_plain::Flags;

const VERBS: [Verb; 14] = [
    Verb::Look,
    Verb::Llook,
    Verb::Cd,
    Verb::Readlink,
    Verb::Stat,
    Verb::List,
    Verb::Mkdir,
    Verb::Create,
    Verb::Link,
    Verb::Symlink,
    Verb::Unlink,
    Verb::Rmdir,
    Verb::Rename,
    Verb::Rename2,
];

impl Verb {
    pub(crate) fn text(self) -> &'static [u8]
        ensures { result.now ≡ verb_text self }
    {
        match self {
            Verb::Look => b"look",
            Verb::Llook => b"llook",
            Verb::Cd => b"cd",
            Verb::Readlink => b"readlink",
            Verb::Stat => b"stat",
            Verb::List => b"list",
            Verb::Mkdir => b"mkdir",
            Verb::Create => b"create",
            Verb::Link => b"link",
            Verb::Symlink => b"symlink",
            Verb::Unlink => b"unlink",
            Verb::Rmdir => b"rmdir",
            Verb::Rename => b"rename",
            Verb::Rename2 => b"rename2",
        }
    }

    /// How many words follow it.
    pub(crate) fn word_count(self) -> usize
        ensures { result ≡ word_count self }
    {
        match self {
            Verb::Rename2 => 3,
            Verb::Link | Verb::Symlink | Verb::Rename => 2,
            Verb::Look
            | Verb::Llook
            | Verb::Cd
            | Verb::Readlink
            | Verb::Stat
            | Verb::List
            | Verb::Mkdir
            | Verb::Create
            | Verb::Unlink
            | Verb::Rmdir => 1,
        }
    }
}

/// The verb that a text names.
#[tactic(auto, unfolding(crate::specs::Reading::verb_in))]
pub(crate) fn verb_in(text: &[u8]) -> Option<Verb>
    ensures { result ≡ verb_in text.now }
{
    VERBS.iter().copied().find(|verb| verb.text() == text)
}

/// The flags that a word spells.
pub(crate) fn flags_in(word: &[u8]) -> Option<Flags>
    ensures { result ≡ flags_in word.now }
{
    let (no_replace, exchange) = match word {
        b"-" => (false, false),
        b"n" => (true, false),
        b"x" => (false, true),
        b"nx" => (true, true),
        _ => return None,
    };
    Some(Flags {
        no_replace,
        exchange,
    })
}

/// Whether the first word is flags, if the verb takes them.
pub(crate) fn flags_stand(verb: Verb, words: &[Vec<u8>]) -> bool
    ensures { result ≡ flags_stand verb (bytes_of words.now) }
{
    if verb != Verb::Rename2 {
        return true;
    }
    match words {
        [first, ..] => flags_in(first).is_some(),
        [] => false,
    }
}
