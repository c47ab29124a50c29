//! Calls that are drawn: of all eleven kinds, with paths of few names, so that threads meet one another.

use dc_cache::ROOT;
use dc_names::NoMemory;
use dc_plain::{Flags, Follow, OwnCall};
use rand_pcg::Pcg32;
use rand_pcg::rand_core::Rng;
use std::alloc::Global;

/// What a path leads through.
const INNER: [&[u8]; 8] = [b"a", b"a", b"a", b"b", b"b", b"c", b"l", b".."];

/// What a path ends in.
const LAST: [&[u8]; 8] = [b"a", b"b", b"c", b"x", b"y", b"l", b"m", b".."];

/// A path with a name too long to be compared as its row is read.
const WIDE: &[u8] = b"/a/a-name-of-more-bytes-than-are-compared-as-its-row-is-read";

/// The calls of a thread.
#[derive(Drop)]
pub struct Draw {
    alloc: Global,
    rng: Pcg32,
    /// Where relative paths start: the directory that the thread found last, or the root.
    pub base: u64,
}

impl Draw {
    /// The calls of a thread by a number.
    pub fn new(alloc: Global, seed: u64, thread: u64) -> Draw {
        Draw {
            alloc,
            rng: Pcg32::new(seed, thread),
            base: ROOT,
        }
    }

    /// A number below `most`.
    pub fn below(&mut self, most: u32) -> u32 {
        self.rng.next_u32().checked_rem(most).unwrap_or(0)
    }

    /// One of some names.
    fn name(&mut self, names: &'static [&'static [u8]; 8]) -> &'static [u8] {
        let at = self.below(8) as usize;
        names.get(at).copied().unwrap_or(b"a")
    }

    /// How many names a path leads through.
    fn depth(&mut self) -> u32 {
        match self.below(8) {
            0..=3 => 0,
            4..=6 => 1,
            _ => 2,
        }
    }

    /// A path of one to three names.
    fn names(&mut self) -> Result<Vec<u8>, NoMemory> {
        let mut path = Vec::new(self.alloc);
        if self.below(4) > 0 {
            path.push(b'/')?;
        }
        for _ in 0..self.depth() {
            path.extend_from_slice(self.name(&INNER))?;
            path.push(b'/')?;
        }
        path.extend_from_slice(self.name(&LAST))?;
        if self.below(16) == 0 {
            path.push(b'/')?;
        }
        Ok(path)
    }

    /// A path, or now and then a text that is none.
    fn path(&mut self) -> Result<Vec<u8>, NoMemory> {
        match self.below(256) {
            0 => Ok(Vec::new(self.alloc)),
            1 => Ok(Vec::from_slice(self.alloc, b"/a\0")?),
            2 => Ok(vec![in self.alloc; b'n'; 256]?),
            3 => Ok(Vec::from_slice(self.alloc, b"//")?),
            4 => Ok(Vec::from_slice(self.alloc, WIDE)?),
            _ => self.names(),
        }
    }

    fn follow(&mut self) -> Follow {
        match self.below(4) {
            0 => Follow::No,
            1 => Follow::Dir,
            _ => Follow::Yes,
        }
    }

    /// Both flags together are refused.
    fn flags(&mut self) -> Flags {
        let drawn = self.below(32);
        Flags {
            no_replace: drawn < 5,
            exchange: drawn == 0 || drawn > 17,
        }
    }

    /// A call.
    pub fn call(&mut self) -> Result<OwnCall, NoMemory> {
        let base = if self.below(2) == 0 { ROOT } else { self.base };
        let path = self.path()?;
        Ok(match self.below(64) {
            0..=29 => OwnCall::Look {
                base,
                path,
                follow: self.follow(),
            },
            30..=32 => OwnCall::Stat { base, path },
            33..=35 => OwnCall::Readlink { base, path },
            36..=37 => OwnCall::List { base, path },
            _ => return self.change(base, path),
        })
    }

    /// A change.
    fn change(&mut self, base: u64, path: Vec<u8>) -> Result<OwnCall, NoMemory> {
        Ok(match self.below(26) {
            0..=5 => OwnCall::Mkdir { base, path },
            6..=8 => OwnCall::Create { base, path },
            9..=10 => OwnCall::Unlink { base, path },
            11..=12 => OwnCall::Rmdir { base, path },
            13..=15 => OwnCall::Link {
                base,
                old: self.path()?,
                new: path,
            },
            16..=18 => OwnCall::Symlink {
                base,
                text: self.path()?,
                path,
            },
            _ => OwnCall::Rename {
                base,
                old: self.path()?,
                new: path,
                flags: self.flags(),
            },
        })
    }
}
