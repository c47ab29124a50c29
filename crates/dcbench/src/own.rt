//! The names that a thread changes, which no other thread does.

ghost use Rattle.std.specs.Prelude.{IfSome};
ghost use Rattle.dc_cache.specs.Passes.{IsChange};

use crate::tree::with;
use crate::work::Work;
use dc_cache::{Call, Flags, ROOT};
use std::alloc::{AllocError, Global};

/// The most files of a thread that renames.
const MOST_RENAMED: usize = 50;

/// How many names a thread has that makes and unlinks.
const MOST_MADE: usize = 32;

/// The two names of a file.
#[derive(Drop)]
struct Pair {
    first: Vec<u8>,
    second: Vec<u8>,
}

/// The files of a thread, and how many changes it has made.
#[derive(Drop)]
pub struct Own {
    work: Work,
    pairs: Vec<Pair>,
    done: u64,
}

fn rename<'a>(old: &'a [u8], new: &'a [u8]) -> Call<'a>
    ensures { IsChange result }
{
    Call::Rename {
        base: ROOT,
        old,
        new,
        flags: Flags::default(),
    }
}

/// A path with some letters and the thread's number behind it.
fn ending(alloc: Global, path: &[u8], letters: &str, thread: u64) -> Result<Vec<u8>, AllocError> {
    with(alloc, path, &format!(in alloc; "{letters}{thread}")?)
}

impl Pair {
    /// The names of a file that is there and stays in its directory.
    fn renamed(alloc: Global, path: &[u8], thread: u64) -> Result<Pair, AllocError> {
        Ok(Pair {
            first: Vec::from_slice(alloc, path)?,
            second: ending(alloc, path, ".to", thread)?,
        })
    }

    /// The names of a file that is made and unlinked.
    fn made(alloc: Global, path: &[u8], thread: u64) -> Result<Pair, AllocError> {
        Ok(Pair {
            first: ending(alloc, path, ".of", thread)?,
            second: ending(alloc, path, ".to", thread)?,
        })
    }
}

impl Own {
    /// The files of one of this many threads: one in the root, or some beside the paths that are asked.
    pub fn new(
        alloc: Global,
        work: Work,
        paths: &[&[u8]],
        thread: u64,
        threads: u64,
    ) -> Result<Own, AllocError> {
        let mut own = Own {
            work,
            pairs: Vec::new(alloc),
            done: 0,
        };
        match work {
            Work::Change => own.pairs.push(Pair::made(alloc, b"/", thread)?)?,
            _ => own.add(alloc, paths, thread, threads)?,
        }
        Ok(own)
    }

    /// Adds the files of one of this many threads, beside the paths that are asked.
    fn add(
        &mut self,
        alloc: Global,
        paths: &[&[u8]],
        thread: u64,
        threads: u64,
    ) -> Result<(), AllocError> {
        let step = usize::try_from(threads).unwrap_or(1).max(1);
        let skipped = usize::try_from(thread).unwrap_or(0);
        let (renames, most) = match self.work {
            Work::Mixed => (true, MOST_RENAMED),
            _ => (false, MOST_MADE),
        };
        for (at, path) in paths.iter().enumerate() {
            if self.pairs.len() < most && at % step == skipped {
                self.pairs.push(match renames {
                    true => Pair::renamed(alloc, path, thread)?,
                    false => Pair::made(alloc, path, thread)?,
                })?;
            }
        }
        Ok(())
    }

    /// How many changes go by before the next file's turn.
    fn round(&self) -> u64 {
        match self.work {
            Work::Churn => 3,
            _ => 2,
        }
    }

    /// The change that comes next.
    pub fn next(&self) -> Option<Call<'_>>
        ensures { IfSome result IsChange }
    {
        let round = self.round();
        let at = self
            .done
            .checked_div(round)?
            .checked_rem(self.pairs.len() as u64)?;
        let Pair { first, second } = self.pairs.get(at as usize)?;
        let step = self.done.checked_rem(round)?;
        let base = ROOT;
        Some(match (self.work, step) {
            (Work::Mixed, 0) => rename(first, second),
            (Work::Mixed, _) => rename(second, first),
            (_, 0) => Call::Create { base, path: first },
            (Work::Churn, 1) => rename(first, second),
            (Work::Churn, _) => Call::Unlink { base, path: second },
            (_, _) => Call::Unlink { base, path: first },
        })
    }

    /// Whether the next change is the first of a file's.
    pub fn is_first(&self) -> bool {
        self.done.checked_rem(self.round()) == Some(0)
    }

    /// Goes on to the next change.
    pub fn step(&mut self) {
        self.done = self.done.wrapping_add(1);
    }
}
