//! The calls that commands make.

ghost use Rattle.std.specs.Prelude.{◌≡◌};
ghost use Rattle.dc_plain.specs.Requests.{request_of};
ghost use Rattle.dc_plain.specs.Requests.Request.{Look, Rename};
ghost use Rattle.dc_lang.specs.Commands.{order_of, word_at, request_from};

use crate::verb::flags_in;
use crate::{Command, Verb};
use dc_plain::{Call, Flags, Follow};

/// What a `rename` without flags asks for.
const NEITHER: Flags = Flags {
    no_replace: false,
    exchange: false,
};

/// The word at a place, or none.
fn word_at(command: &Command, at: usize) -> &[u8]
    ensures { result.now ≡ word_at at (order_of command.now) }
{
    match command.words.get(at) {
        Some(word) => word,
        None => &[],
    }
}

fn look(base: u64, path: &[u8], follow: Follow) -> Call<'_>
    ensures { request_of result ≡ Look base path.now follow }
{
    Call::Look { base, path, follow }
}

fn rename<'a>(base: u64, old: &'a [u8], new: &'a [u8], flags: Flags) -> Call<'a>
    ensures { request_of result ≡ Rename base old.now new.now flags }
{
    Call::Rename {
        base,
        old,
        new,
        flags,
    }
}

/// The call that a command makes from the directory with the number `base`.
pub fn call(command: &Command, base: u64) -> Call<'_>
    ensures { request_of result ≡ request_from base (order_of command.now) }
{
    let path = word_at(command, 0);
    let (old, new) = (path, word_at(command, 1));
    match command.verb {
        Verb::Look => look(base, path, Follow::Yes),
        Verb::Llook => look(base, path, Follow::No),
        Verb::Cd => look(base, path, Follow::Dir),
        Verb::Readlink => Call::Readlink { base, path },
        Verb::Stat => Call::Stat { base, path },
        Verb::List => Call::List { base, path },
        Verb::Mkdir => Call::Mkdir { base, path },
        Verb::Create => Call::Create { base, path },
        Verb::Link => Call::Link { base, old, new },
        Verb::Symlink => Call::Symlink {
            base,
            text: old,
            path: new,
        },
        Verb::Unlink => Call::Unlink { base, path },
        Verb::Rmdir => Call::Rmdir { base, path },
        Verb::Rename => rename(base, old, new, NEITHER),
        Verb::Rename2 => {
            // A line that was read has one of the four.
            let flags = flags_in(path).unwrap_or(NEITHER);
            rename(base, new, word_at(command, 2), flags)
        }
    }
}
