//! The refusals of the tree.

ghost use Rattle.std.specs.Prelude.{◌≡◌};
ghost use Rattle.dc_names.specs.Refusals.{IsRefusalOf, refusal_name, refusal_number, refusal_of, refusal_with};

use crate::TextFault;
use std::error::Error;
use std::fmt;

/// Why a call is refused: the errors of POSIX.1-2017 that a tree answers, each under the name and
/// the number that Linux gives it.
#[derive(Clone, Copy, Debug, PartialEq, Eq)]
pub enum Refusal {
    /// EPERM, 1: a directory is to get a further name or to be unlinked.
    NotPermitted,
    /// ENOENT, 2: a name, a starting directory or a whole path is missing.
    NotFound,
    /// EBUSY, 16: the root is to be removed or renamed.
    Busy,
    /// EEXIST, 17: the name is there already.
    Exists,
    /// ENOTDIR, 20: what should be a directory is none.
    NotDirectory,
    /// EISDIR, 21: a directory stands where a file is renamed to.
    IsDirectory,
    /// EINVAL, 22: a zero byte, a last part that the call does not take, no link, or a directory
    /// that would come beneath itself.
    Invalid,
    /// ENOSPC, 28: no further inode may be made.
    NoSpace,
    /// EMLINK, 31: the file has as many names as it may have.
    TooManyNames,
    /// ENAMETOOLONG, 36: a path or a component has too many bytes.
    NameTooLong,
    /// ENOTEMPTY, 39: the directory has an entry.
    NotEmpty,
    /// ELOOP, 40: one resolution meets more links than it may follow.
    TooManyLinks,
}

/// All refusals, by their numbers.
const REFUSALS: [Refusal; 12] = [
    Refusal::NotPermitted,
    Refusal::NotFound,
    Refusal::Busy,
    Refusal::Exists,
    Refusal::NotDirectory,
    Refusal::IsDirectory,
    Refusal::Invalid,
    Refusal::NoSpace,
    Refusal::TooManyNames,
    Refusal::NameTooLong,
    Refusal::NotEmpty,
    Refusal::TooManyLinks,
];

impl Refusal {
    /// The refusal that has a number, or `None` if none has it.
    #[must_use]
    pub fn of(number: u64) -> Option<Refusal>
        ensures { IsRefusalOf number result }
    {
        first_with(number)
    }

    /// The number of the error on Linux.
    #[must_use]
    pub fn number(self) -> u64
        ensures { result ≡ refusal_number self }
    {
        match self {
            Refusal::NotPermitted => 1,
            Refusal::NotFound => 2,
            Refusal::Busy => 16,
            Refusal::Exists => 17,
            Refusal::NotDirectory => 20,
            Refusal::IsDirectory => 21,
            Refusal::Invalid => 22,
            Refusal::NoSpace => 28,
            Refusal::TooManyNames => 31,
            Refusal::NameTooLong => 36,
            Refusal::NotEmpty => 39,
            Refusal::TooManyLinks => 40,
        }
    }

    /// The name of the error, as in `ENOENT`.
    #[must_use]
    pub fn name(self) -> &'static str
        ensures { result.now ≡ refusal_name self }
    {
        match self {
            Refusal::NotPermitted => "EPERM",
            Refusal::NotFound => "ENOENT",
            Refusal::Busy => "EBUSY",
            Refusal::Exists => "EEXIST",
            Refusal::NotDirectory => "ENOTDIR",
            Refusal::IsDirectory => "EISDIR",
            Refusal::Invalid => "EINVAL",
            Refusal::NoSpace => "ENOSPC",
            Refusal::TooManyNames => "EMLINK",
            Refusal::NameTooLong => "ENAMETOOLONG",
            Refusal::NotEmpty => "ENOTEMPTY",
            Refusal::TooManyLinks => "ELOOP",
        }
    }
}

/// The first refusal that has a number.
fn first_with(number: u64) -> Option<Refusal>
    ensures { result ≡ refusal_with number }
{
    REFUSALS
        .iter()
        .copied()
        .find(|refusal| refusal.number() == number)
}

impl fmt::Display for Refusal {
    fn fmt<W: fmt::Write>(&self, f: &mut fmt::Formatter<W>) -> fmt::Result {
        f.write_str(self.name())
    }
}

impl Error for Refusal {}

impl From<TextFault> for Refusal {
    ghost from_gives = { λ fault refusal. refusal ≡ refusal_of fault };

    fn from(fault: TextFault) -> Refusal {
        match fault {
            TextFault::Empty => Refusal::NotFound,
            TextFault::Long => Refusal::NameTooLong,
            TextFault::Zero => Refusal::Invalid,
        }
    }
}
