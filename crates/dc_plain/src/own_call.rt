//! Calls that own their bytes.

ghost use Rattle.std.specs.Prelude.{◌≡◌, IfOk};
ghost use Rattle.dc_plain.specs.OwnCalls.{own_request};
ghost use Rattle.dc_plain.specs.RequestBytes.{bytes_of};
ghost use Rattle.dc_plain.specs.Requests.{request_of};
ghost use Rattle.dc_plain.specs.Requests.Request.{Look, Rename};

use crate::{Call, Flags, Follow};
use dc_names::NoMemory;
use std::alloc::Global;
use std::fmt;

/// A [`Call`] that owns its bytes, for one who keeps it.
#[derive(Drop, PartialEq, Eq)]
pub enum OwnCall {
    /// Where a path leads.
    Look {
        base: u64,
        path: Vec<u8>,
        follow: Follow,
    },
    /// The text of a symbolic link.
    Readlink {
        base: u64,
        path: Vec<u8>,
    },
    /// Where a path leads, and how many names or entries that inode has.
    Stat {
        base: u64,
        path: Vec<u8>,
    },
    /// The names in a directory.
    List {
        base: u64,
        path: Vec<u8>,
    },
    /// An empty directory is made.
    Mkdir {
        base: u64,
        path: Vec<u8>,
    },
    /// An empty regular file is made.
    Create {
        base: u64,
        path: Vec<u8>,
    },
    /// What `old` names gets the further name `new`.
    Link {
        base: u64,
        old: Vec<u8>,
        new: Vec<u8>,
    },
    /// A symbolic link with a text is made.
    Symlink {
        base: u64,
        text: Vec<u8>,
        path: Vec<u8>,
    },
    /// A name of a file or of a link goes.
    Unlink {
        base: u64,
        path: Vec<u8>,
    },
    /// An empty directory goes.
    Rmdir {
        base: u64,
        path: Vec<u8>,
    },
    /// What `old` names gets the name `new` in its place, or as the flags say.
    Rename {
        base: u64,
        old: Vec<u8>,
        new: Vec<u8>,
        flags: Flags,
    },
}

impl fmt::Debug for OwnCall {
    fn fmt<W: fmt::Write>(&self, f: &mut fmt::Formatter<W>) -> fmt::Result {
        self.as_call().fmt(f)
    }
}

/// The path of a call with nothing beside it, or its two paths, or its text with its path.
fn bytes_of<'a>(call: &Call<'a>) -> (&'a [u8], &'a [u8])
    ensures { (result.0.now, result.1.now) ≡ bytes_of (request_of call.now) }
{
    match *call {
        Call::Look { path, .. }
        | Call::Readlink { path, .. }
        | Call::Stat { path, .. }
        | Call::List { path, .. }
        | Call::Mkdir { path, .. }
        | Call::Create { path, .. }
        | Call::Unlink { path, .. }
        | Call::Rmdir { path, .. } => (path, b""),
        Call::Link { old, new, .. } | Call::Rename { old, new, .. } => (old, new),
        Call::Symlink { text, path, .. } => (text, path),
    }
}

impl OwnCall {
    /// A copy of a call.
    pub fn of(alloc: Global, call: &Call) -> Result<OwnCall, NoMemory>
        ensures { IfOk result (λ own. own_request own ≡ request_of call.now) }
    {
        let (first, second) = bytes_of(call);
        let first = Vec::from_slice(alloc, first)?;
        let second = Vec::from_slice(alloc, second)?;
        Ok(OwnCall::with(call, first, second))
    }

    /// The call over copies of its bytes: of its path alone, or of both texts that it names.
    fn with(call: &Call<'_>, path: Vec<u8>, second: Vec<u8>) -> OwnCall
        requires { (path.items, second.items) ≡ bytes_of (request_of call.now) }
        ensures { own_request result ≡ request_of call.now }
    {
        match *call {
            Call::Look { base, follow, .. } => OwnCall::Look { base, path, follow },
            Call::Readlink { base, .. } => OwnCall::Readlink { base, path },
            Call::Stat { base, .. } => OwnCall::Stat { base, path },
            Call::List { base, .. } => OwnCall::List { base, path },
            Call::Mkdir { base, .. } => OwnCall::Mkdir { base, path },
            Call::Create { base, .. } => OwnCall::Create { base, path },
            Call::Link { base, .. } => OwnCall::Link {
                base,
                old: path,
                new: second,
            },
            Call::Symlink { base, .. } => OwnCall::Symlink {
                base,
                text: path,
                path: second,
            },
            Call::Unlink { base, .. } => OwnCall::Unlink { base, path },
            Call::Rmdir { base, .. } => OwnCall::Rmdir { base, path },
            Call::Rename { base, flags, .. } => OwnCall::Rename {
                base,
                old: path,
                new: second,
                flags,
            },
        }
    }

    /// The call over the bytes that are owned.
    pub fn as_call(&self) -> Call<'_>
        ensures { request_of result ≡ own_request self.now }
    {
        match self {
            OwnCall::Look { base, path, follow } => look(*base, path, *follow),
            OwnCall::Readlink { base, path } => Call::Readlink { base: *base, path },
            OwnCall::Stat { base, path } => Call::Stat { base: *base, path },
            OwnCall::List { base, path } => Call::List { base: *base, path },
            OwnCall::Mkdir { base, path } => Call::Mkdir { base: *base, path },
            OwnCall::Create { base, path } => Call::Create { base: *base, path },
            OwnCall::Link { base, old, new } => Call::Link {
                base: *base,
                old,
                new,
            },
            OwnCall::Symlink { base, text, path } => Call::Symlink {
                base: *base,
                text,
                path,
            },
            OwnCall::Unlink { base, path } => Call::Unlink { base: *base, path },
            OwnCall::Rmdir { base, path } => Call::Rmdir { base: *base, path },
            OwnCall::Rename {
                base,
                old,
                new,
                flags,
            } => rename(*base, old, new, *flags),
        }
    }
}

/// The call that looks a path up.
fn look(base: u64, path: &[u8], follow: Follow) -> Call<'_>
    ensures { request_of result ≡ Look base path.now follow }
{
    Call::Look { base, path, follow }
}

/// The call that renames.
fn rename<'a>(base: u64, old: &'a [u8], new: &'a [u8], flags: Flags) -> Call<'a>
    ensures { request_of result ≡ Rename base old.now new.now flags }
{
    Call::Rename {
        base,
        old,
        new,
        flags,
    }
}
