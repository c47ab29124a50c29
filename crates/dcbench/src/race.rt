//! Races: threads look a path up while another renames a directory of it.
//!
//! The right answer is the same at each moment, so any other shows a path that never was. Rename: the
//! file is made and unlinked while its directory has its other name, so that its path under the first
//! name never stands. Exchange: two directories swap their names; each has a link to the other's name
//! as it is seen from there, and only one of them has the file, so that the path through the link
//! always leads to it.

ghost use Rattle.dc_cache.specs.Passes.{Fits};

use crate::gate::Gate;
use crate::look::look;
use crate::tally::{Tally, a_second};
use crate::tree::change;
use crate::work::Sort;
use dc_cache::{Call, Dcache, Flags, Follow, Pass, PathText, ROOT, Reply};
use std::alloc::{AllocError, Global};
use std::rt::Clock;
use std::sync::Wait;
use std::sync::atomic::{AtomicU64, Ordering};
use std::time::Instant;

/// The paths of a race.
#[derive(Drop)]
pub struct Course {
    /// The lines of the tree that it begins with.
    pub lines: Vec<u8>,
    /// The path that is looked up.
    pub asked: Vec<u8>,
    /// The path under which the file is made, if it is.
    pub made: Vec<u8>,
}

/// A path below a directory: this many times `d`, and then the file.
fn below(alloc: Global, top: &str, depth: u64) -> Result<Vec<u8>, AllocError> {
    let mut path = Vec::from_slice(alloc, top.as_bytes())?;
    for _ in 0..depth {
        path.extend_from_slice(b"/d")?;
    }
    path.extend_from_slice(b"/f")?;
    Ok(path)
}

/// Adds the lines of a directory and of those below it.
fn add_directories(lines: &mut Vec<u8>, top: &str, depth: u64) -> Result<(), AllocError> {
    'levels: for level in 0..=depth {
        lines.extend_from_slice(b"d ")?;
        lines.extend_from_slice(top.as_bytes())?;
        'parts: for _ in 0..level {
            lines.extend_from_slice(b"/d")?;
        }
        lines.push(b'\n')?;
    }
    Ok(())
}

/// The lines of two directories that swap their names, and of the file below the second.
fn exchange_lines(alloc: Global, depth: u64, made: &[u8]) -> Result<Vec<u8>, AllocError> {
    let mut lines = Vec::new(alloc);
    add_directories(&mut lines, "/a", depth)?;
    add_directories(&mut lines, "/b", depth)?;
    lines.extend_from_slice(b"l ../b /a/l\nl ../a /b/l\nc ")?;
    lines.extend_from_slice(made)?;
    lines.push(b'\n')?;
    Ok(lines)
}

impl Course {
    /// The course with this many directories between the one that is renamed and the file.
    pub fn new(alloc: Global, sort: Sort, depth: u64) -> Result<Course, AllocError> {
        match sort {
            Sort::Rename => Course::of_rename(alloc, depth),
            Sort::Exchange => Course::of_exchange(alloc, depth),
        }
    }

    fn of_rename(alloc: Global, depth: u64) -> Result<Course, AllocError> {
        let mut lines = Vec::new(alloc);
        add_directories(&mut lines, "/p", depth)?;
        Ok(Course {
            lines,
            asked: below(alloc, "/p", depth)?,
            made: below(alloc, "/q", depth)?,
        })
    }

    fn of_exchange(alloc: Global, depth: u64) -> Result<Course, AllocError> {
        let made = below(alloc, "/b", depth)?;
        Ok(Course {
            lines: exchange_lines(alloc, depth, &made)?,
            asked: below(alloc, "/a/l", depth)?,
            made,
        })
    }
}

/// What all threads of a race share.
#[derive(Clone, Copy)]
pub struct Race<'a> {
    pub alloc: Global,
    pub sort: Sort,
    pub asked: PathText<'a>,
    pub made: &'a [u8],
    /// The answer that is right.
    pub right: &'a Reply,
    /// How many threads look up, and how often each.
    pub lookers: u64,
    pub looks: u64,
    /// How many of them are done.
    pub done: &'a AtomicU64,
    pub gate: &'a Gate,
}

impl<'a> Race<'a> {
    /// Looks up, and counts the answers that aren't right.
    fn look_on<R: Wait>(&self, rt: &R, cache: &Dcache, pass: &mut Pass, tally: &mut Tally)
        requires { Fits cache.now pass.old }
        ensures { Fits cache.now pass.new }
    {
        'looks: for _ in 0..self.looks {
            let reply = look(rt, self.alloc, cache, pass, self.asked, tally);
            tally.looks = tally.looks.saturating_add(1);
            let wrong = reply != *self.right;
            tally.wrong = tally.wrong.saturating_add(u64::from(wrong));
        }
    }

    /// Renames in the root.
    fn rename<R: Wait>(
        &self,
        rt: &R,
        cache: &Dcache,
        pass: &mut Pass,
        old: &[u8],
        new: &[u8],
        tally: &mut Tally,
    )
        requires { Fits cache.now pass.old }
        ensures { Fits cache.now pass.new }
    {
        let flags = Flags {
            no_replace: false,
            exchange: matches!(self.sort, Sort::Exchange),
        };
        let call = Call::Rename {
            base: ROOT,
            old,
            new,
            flags,
        };
        change(rt, self.alloc, cache, pass, &call, tally);
    }

    /// Makes the changes of one round.
    fn round<R: Wait>(&self, rt: &R, cache: &Dcache, pass: &mut Pass, tally: &mut Tally)
        requires { Fits cache.now pass.old }
        ensures { Fits cache.now pass.new }
    {
        let (base, path, alloc) = (ROOT, self.made, self.alloc);
        match self.sort {
            Sort::Exchange => self.rename(rt, cache, pass, b"/a", b"/b", tally),
            Sort::Rename => {
                self.rename(rt, cache, pass, b"/p", b"/q", tally);
                change(rt, alloc, cache, pass, &Call::Create { base, path }, tally);
                change(rt, alloc, cache, pass, &Call::Unlink { base, path }, tally);
                self.rename(rt, cache, pass, b"/q", b"/p", tally);
            }
        }
    }

    /// Makes changes until all look-ups are made.
    fn change_on<R: Wait>(&self, rt: &R, cache: &Dcache, pass: &mut Pass, tally: &mut Tally)
        requires { Fits cache.now pass.old }
        ensures { Fits cache.now pass.new }
    {
        'rounds: for _ in 0..u64::MAX {
            if self.done.load(Ordering::SeqCst) >= self.lookers {
                break;
            }
            self.round(rt, cache, pass, tally);
        }
    }

    /// What a thread does. The last one changes, the others look up.
    pub fn run<R: Wait + Clock>(
        &self,
        rt: &R,
        cache: &Dcache,
        pass: &mut Pass,
        thread: u64,
    ) -> Tally
        requires { Fits cache.now pass.old }
        ensures { Fits cache.now pass.new }
    {
        let mut tally = Tally::new(self.alloc);
        let begin = self.gate.pass(rt);
        if thread >= self.lookers {
            self.change_on(rt, cache, pass, &mut tally);
            return tally;
        }
        self.look_on(rt, cache, pass, &mut tally);
        self.done.fetch_add(1, Ordering::SeqCst);
        if let (Some(begin), Ok(end)) = (begin, Instant::now(rt)) {
            let took = end.saturating_duration_since(begin);
            let looks = tally.looks;
            tally.rate = a_second(looks, took);
            tally.turn(took, looks);
        }
        tally
    }
}

/// The answer that a path has before the race.
pub fn answer<R: Wait>(
    rt: &R,
    alloc: Global,
    cache: &Dcache,
    pass: &mut Pass,
    asked: &[u8],
) -> Reply
    requires { Fits cache.now pass.old }
    ensures { Fits cache.now pass.new }
{
    cache.look(rt, alloc, pass, ROOT, asked, Follow::Yes).reply
}
