//! Calls from the root and replies to them, as a table of constants has them.

use dc_names::Kind;
use dc_plain::{Call, Flags, Follow, Reply};

/// A call from the root.
#[derive(Clone, Copy)]
pub(crate) enum Ask<'a> {
    Look(&'a [u8]),
    /// What a path leads to, its last link kept.
    Kept(&'a [u8]),
    /// A directory in which to start.
    Start(&'a [u8]),
    Readlink(&'a [u8]),
    Stat(&'a [u8]),
    List(&'a [u8]),
    /// The names in the directory of a number, which is not the root.
    ListIn(u64),
    Mkdir(&'a [u8]),
    Create(&'a [u8]),
    /// An old name, and a new one.
    Link(&'a [u8], &'a [u8]),
    /// A text, and the path of the link that has it.
    Symlink(&'a [u8], &'a [u8]),
    Unlink(&'a [u8]),
    Rmdir(&'a [u8]),
    Rename(&'a [u8], &'a [u8]),
    /// A rename to a name that has to be free.
    Free(&'a [u8], &'a [u8]),
    /// Two names that exchange what they name.
    Exchange(&'a [u8], &'a [u8]),
}

fn look<'a>(path: &'a [u8], follow: Follow) -> Call<'a> {
    Call::Look {
        base: 1,
        path,
        follow,
    }
}

fn rename<'a>(old: &'a [u8], new: &'a [u8], no_replace: bool, exchange: bool) -> Call<'a> {
    Call::Rename {
        base: 1,
        old,
        new,
        flags: Flags {
            no_replace,
            exchange,
        },
    }
}

impl<'a> Ask<'a> {
    /// The call itself.
    pub(crate) fn call(self) -> Call<'a> {
        let base = 1;
        match self {
            Ask::Look(path) => look(path, Follow::Yes),
            Ask::Kept(path) => look(path, Follow::No),
            Ask::Start(path) => look(path, Follow::Dir),
            Ask::Readlink(path) => Call::Readlink { base, path },
            Ask::Stat(path) => Call::Stat { base, path },
            Ask::List(path) => Call::List { base, path },
            Ask::ListIn(base) => Call::List { base, path: b"." },
            Ask::Mkdir(path) => Call::Mkdir { base, path },
            Ask::Create(path) => Call::Create { base, path },
            Ask::Link(old, new) => Call::Link { base, old, new },
            Ask::Symlink(text, path) => Call::Symlink { base, text, path },
            Ask::Unlink(path) => Call::Unlink { base, path },
            Ask::Rmdir(path) => Call::Rmdir { base, path },
            Ask::Rename(old, new) => rename(old, new, false, false),
            Ask::Free(old, new) => rename(old, new, true, false),
            Ask::Exchange(old, new) => rename(old, new, false, true),
        }
    }
}

/// A reply that is wanted.
#[derive(Clone, Copy)]
pub(crate) enum Want<'a> {
    Found(u64, Kind),
    Done(u64),
    Unit,
    Text(&'a [u8]),
    Names(&'a [&'a [u8]]),
    Stat(u64, Kind, u64),
    Refused(u64),
}

impl Want<'_> {
    /// Whether a reply is this one.
    pub(crate) fn is(&self, reply: &Reply) -> bool {
        match (self, reply) {
            (Want::Found(number, kind), Reply::Found(found, other)) => {
                number == found && kind == other
            }
            (Want::Done(number), Reply::Done(made)) => number == made,
            (Want::Unit, Reply::Unit) => true,
            (Want::Text(text), Reply::Text(told)) => *text == told.as_slice(),
            (Want::Names(names), Reply::Names(told)) => are_names(names, told),
            (Want::Stat(number, kind, count), Reply::Stat(found, other, counted)) => {
                number == found && kind == other && count == counted
            }
            (Want::Refused(number), Reply::Refused(told)) => number == told,
            _ => false,
        }
    }
}

/// Whether these are the names that were listed.
fn are_names(names: &[&[u8]], told: &[Vec<u8>]) -> bool {
    let told = told.iter().map(|name| name.as_slice());
    told.eq(names.iter().copied())
}
