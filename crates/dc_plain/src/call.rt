//! Calls and replies.

ghost use Rattle.std.specs.Prelude.{◌≡◌};
ghost use Rattle.dc_plain.specs.Requests.{request_of, sort_of};

use dc_names::Kind;

/// What becomes of a link that a path ends in.
#[derive(Clone, Copy, Debug, PartialEq, Eq)]
pub enum Follow {
    /// It is followed.
    Yes,
    /// It is kept, unless a slash ends the path.
    No,
    /// It is followed, and what is found must be a directory.
    Dir,
}

/// What a rename may do with what stands at the new name. The two together are refused.
#[derive(Clone, Copy, Debug, Default, PartialEq, Eq)]
pub struct Flags {
    /// The new name has to be free.
    pub no_replace: bool,
    /// The two names swap what they lead to.
    pub exchange: bool,
}

/// A call on a tree. `base` is the number of the directory that a relative path starts from, and
/// paths come as the bytes that the caller gave.
#[derive(Clone, Copy, Debug, PartialEq, Eq)]
pub enum Call<'a> {
    /// Where a path leads (POSIX.1-2017 XBD 4.13).
    Look {
        base: u64,
        path: &'a [u8],
        follow: Follow,
    },
    /// The text of a symbolic link.
    Readlink {
        base: u64,
        path: &'a [u8],
    },
    /// Where a path leads, and how many names or entries that inode has.
    Stat {
        base: u64,
        path: &'a [u8],
    },
    /// The names in a directory.
    List {
        base: u64,
        path: &'a [u8],
    },
    /// An empty directory is made.
    Mkdir {
        base: u64,
        path: &'a [u8],
    },
    /// An empty regular file is made.
    Create {
        base: u64,
        path: &'a [u8],
    },
    /// What `old` names gets the further name `new`.
    Link {
        base: u64,
        old: &'a [u8],
        new: &'a [u8],
    },
    /// A symbolic link with a text is made.
    Symlink {
        base: u64,
        text: &'a [u8],
        path: &'a [u8],
    },
    /// A name of a file or of a link goes.
    Unlink {
        base: u64,
        path: &'a [u8],
    },
    /// An empty directory goes.
    Rmdir {
        base: u64,
        path: &'a [u8],
    },
    /// What `old` names gets the name `new` in its place, or as the flags say.
    Rename {
        base: u64,
        old: &'a [u8],
        new: &'a [u8],
        flags: Flags,
    },
}

/// How a call is answered.
#[derive(Clone, Copy, Debug, PartialEq, Eq)]
pub enum Sort {
    /// A change, which may alter the tree.
    Change,
    /// A look-up or a count, whose answer takes no memory.
    Sought,
    /// A text or a list of names, whose answer takes memory.
    Told,
}

impl Call<'_> {
    /// How the call is answered.
    #[must_use]
    pub fn sort(&self) -> Sort
        ensures { result ≡ sort_of (request_of self.now) }
    {
        match self {
            Call::Look { .. } | Call::Stat { .. } => Sort::Sought,
            Call::Readlink { .. } | Call::List { .. } => Sort::Told,
            Call::Mkdir { .. }
            | Call::Create { .. }
            | Call::Link { .. }
            | Call::Symlink { .. }
            | Call::Unlink { .. }
            | Call::Rmdir { .. }
            | Call::Rename { .. } => Sort::Change,
        }
    }
}

/// What a call is answered.
#[derive(Debug, Drop, PartialEq, Eq)]
pub enum Reply {
    /// The number and the kind of what was found.
    Found(u64, Kind),
    /// The number of what was made or got a further name.
    Done(u64),
    /// The change was made.
    Unit,
    /// A link's text.
    Text(Vec<u8>),
    /// The names in a directory, by their bytes.
    Names(Vec<Vec<u8>>),
    /// A number, its kind, and how many names it has, or how many entries as a directory.
    Stat(u64, Kind, u64),
    /// The number of an error, as Linux counts them.
    Refused(u64),
}

/// A reply with its place in the run: `at` counts the changes that altered the tree before the call
/// took effect.
#[derive(Debug, Drop, PartialEq, Eq)]
pub struct Stamped {
    /// The answer.
    pub reply: Reply,
    /// How many changes came before it.
    pub at: u64,
}
