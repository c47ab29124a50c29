//! Refusals that may be told for the one that is due.

use crate::tree::Tree;
use dc_names::NoMemory;
use dc_plain::{Call, Flags, Follow, Reply};
use std::alloc::Global;

const EPERM: u64 = 1;

const EBUSY: u64 = 16;

const EEXIST: u64 = 17;

const ENOTDIR: u64 = 20;

const EISDIR: u64 = 21;

const EINVAL: u64 = 22;

const ENOSPC: u64 = 28;

const ENOTEMPTY: u64 = 39;

/// Whose numbers of errors a trace has.
#[derive(Clone, Copy, PartialEq, Eq)]
pub enum Errors {
    /// Those of the plain tree.
    Exact,
    /// Linux's, which tests in another order at a few calls.
    Linux,
    /// Of several refusals that apply any, and for a name in use either number.
    Posix,
}

/// The two paths of a call.
#[derive(Clone, Copy)]
struct Pair<'a> {
    base: u64,
    old: &'a [u8],
    new: &'a [u8],
}

/// The number that a call is refused with.
fn refusal(alloc: Global, tree: &Tree, call: &Call) -> Result<Option<u64>, NoMemory> {
    match tree.answer(alloc, call)? {
        Some(Reply::Refused(number)) => Ok(Some(number)),
        _ => Ok(None),
    }
}

/// Whether the last part of a path is a dot or two.
fn ends_in_dots(path: &[u8]) -> bool {
    let last = path
        .rsplit(|byte| *byte == b'/')
        .find(|part| !part.is_empty());
    matches!(last, Some(b"." | b".."))
}

impl Pair<'_> {
    /// Why the old path leads nowhere.
    fn of_old(&self, alloc: Global, tree: &Tree) -> Result<Option<u64>, NoMemory> {
        let (base, path, follow) = (self.base, self.old, Follow::No);
        refusal(alloc, tree, &Call::Look { base, path, follow })
    }

    /// Why nothing can be made at the new path.
    fn of_new(&self, alloc: Global, tree: &Tree) -> Result<Option<u64>, NoMemory> {
        let (base, path) = (self.base, self.new);
        let number = refusal(alloc, tree, &Call::Create { base, path })?;
        Ok(number.filter(|number| *number != ENOSPC))
    }

    /// Whether a path is walked to its last part, and that is in use.
    fn is_in_use(&self, alloc: Global, tree: &Tree, path: &[u8]) -> Result<bool, NoMemory> {
        let base = self.base;
        Ok(refusal(alloc, tree, &Call::Create { base, path })? == Some(EEXIST))
    }

    /// Whether what the new path names is a directory above the old one's.
    fn is_below(&self, alloc: Global, tree: &Tree) -> Result<bool, NoMemory> {
        let turned = Call::Rename {
            base: self.base,
            old: self.new,
            new: self.old,
            flags: Flags::default(),
        };
        Ok(refusal(alloc, tree, &turned)? == Some(EINVAL))
    }

    /// What Linux refuses a link with: the old path is walked to its end first, and that it is a directory
    /// is seen last.
    fn link(&self, alloc: Global, tree: &Tree, due: u64) -> Result<u64, NoMemory> {
        if let Some(number) = self.of_old(alloc, tree)? {
            return Ok(number);
        }
        match self.of_new(alloc, tree)? {
            Some(number) if due == EPERM => Ok(number),
            _ => Ok(due),
        }
    }

    /// What Linux refuses a renaming with: a path that ends in dots is busy, a name in use comes before a
    /// slash, and a directory above the other name is one that isn't empty.
    fn rename(&self, alloc: Global, tree: &Tree, flags: Flags, due: u64) -> Result<u64, NoMemory> {
        let (is_apart, dots) = (flags.no_replace, ends_in_dots(self.old));
        match due {
            EINVAL if is_apart && flags.exchange => Ok(due),
            EINVAL if is_apart && !dots && ends_in_dots(self.new) => Ok(EEXIST),
            EINVAL if dots || ends_in_dots(self.new) => Ok(EBUSY),
            ENOTDIR
                if is_apart
                    && self.is_in_use(alloc, tree, self.old)?
                    && self.is_in_use(alloc, tree, self.new)? => { Ok(EEXIST) }
            EISDIR if self.is_below(alloc, tree)? => Ok(ENOTEMPTY),
            _ => Ok(due),
        }
    }
}

/// What Linux refuses a call with, if this number is due.
fn linux(alloc: Global, tree: &Tree, call: &Call, due: u64) -> Result<u64, NoMemory> {
    match *call {
        Call::Unlink { .. } if due == EPERM => Ok(EISDIR),
        Call::Link { base, old, new } => Pair { base, old, new }.link(alloc, tree, due),
        Call::Rename {
            base,
            old,
            new,
            flags,
        } => Pair { base, old, new }.rename(alloc, tree, flags, due),
        _ => Ok(due),
    }
}

/// Whether a call that is refused may be refused with this number, as it applies too.
fn applies(alloc: Global, tree: &Tree, call: &Call, due: u64, told: u64) -> Result<bool, NoMemory> {
    let (pair, replaces) = match *call {
        Call::Link { base, old, new } => (Pair { base, old, new }, false),
        Call::Rename {
            base,
            old,
            new,
            flags,
        } => (Pair { base, old, new }, !flags.no_replace),
        Call::Rmdir { .. } => return Ok(due == ENOTEMPTY && told == EEXIST),
        _ => return Ok(false),
    };
    let number = pair.of_new(alloc, tree)?;
    let is_new = number == Some(told) && !(replaces && told == EEXIST);
    let in_use = due == ENOTEMPTY && told == EEXIST;
    Ok(is_new || in_use || pair.of_old(alloc, tree)? == Some(told))
}

/// Whether a call may be refused with this number, if another one or the same is due.
pub fn may_tell(
    alloc: Global,
    errors: Errors,
    tree: &Tree,
    call: &Call,
    due: u64,
    told: u64,
) -> Result<bool, NoMemory> {
    match errors {
        Errors::Exact => Ok(due == told),
        Errors::Linux => Ok(linux(alloc, tree, call, due)? == told),
        Errors::Posix => Ok(
            due == told
                || linux(alloc, tree, call, due)? == told
                || applies(alloc, tree, call, due, told)?,
        ),
    }
}
