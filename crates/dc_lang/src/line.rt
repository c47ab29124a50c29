//! What a line says, and why one is not read.

/// What a command asks for.
#[derive(Clone, Copy, Debug, PartialEq, Eq)]
pub enum Verb {
    /// Where a path leads.
    Look,
    /// Where a path leads, a last link kept.
    Llook,
    /// Where a path leads, a last link followed, to a directory. The session starts there from then
    /// on.
    Cd,
    /// The text of a symbolic link.
    Readlink,
    /// Where a path leads, and how many names or entries that inode has.
    Stat,
    /// The names in a directory.
    List,
    /// An empty directory is made.
    Mkdir,
    /// An empty regular file is made.
    Create,
    /// What the first word names gets the second as a further name.
    Link,
    /// A symbolic link is made, with the first word as its text.
    Symlink,
    /// A name of a file or of a link goes.
    Unlink,
    /// An empty directory goes.
    Rmdir,
    /// What the first word names gets the second as its name.
    Rename,
    /// What the second word names gets the third as its name, or as the first word says by its flags:
    /// `-` none, `n` no-replace, `x` exchange, `nx` both.
    Rename2,
}

/// A command of a session.
#[derive(Debug, Drop, PartialEq, Eq)]
pub struct Command {
    /// Below `SESSIONS`.
    pub session: u64,
    /// What the command asks for.
    pub verb: Verb,
    /// The bytes that each word after the verb stands for, its escapes read.
    pub words: Vec<Vec<u8>>,
}

/// A line of the input.
#[derive(Debug, Drop, PartialEq, Eq)]
pub enum Line {
    /// All commands before it are answered before any after it begins.
    Sync,
    /// A command of one session.
    Command(Command),
}

/// Why a line wasn't read.
#[derive(Clone, Copy, Debug, PartialEq, Eq)]
pub enum LineFault {
    /// The line is none of the grammar.
    Bad,
    /// Memory was refused.
    NoMemory,
}
