//! A round: a cache from its making to its end, shaken by some threads, and what is found out about it.

ghost use Rattle.std.specs.Prelude.{◌≡◌, None, IfOk};
ghost use Rattle.std.specs.Thread.{IsSync};
ghost use Rattle.dc_cache.specs.Passes.{Fits};
ghost use Rattle.dc_check.specs.Stamps.{stamps_of};
ghost use Rattle.dc_plain.specs.Legal.{IsLegal};

use crate::gate::Gate;
use crate::replay::{Replay, agree};
use crate::tally::Tally;
use crate::threads::{Answers, Job, spread};
use dc_cache::{Dcache, Ended, MakeFault, Pass};
use dc_check::{Stamp, Verdict, check};
use dc_names::NoMemory;
use std::alloc::Global;
use std::error::Error;
use std::fmt;
use std::sync::Wait;
use std::thread::Threads;

/// How many inodes may live in a cache. Threads meet this limit.
pub const INODES: u64 = 48;

/// How many numbers of buckets there are.
pub const SORTS: usize = 4;

/// The numbers of buckets, which caches have in turns.
pub const BUCKETS: [u64; SORTS] = [1, 2, 16, 1_024];

/// The fewest threads of a round, and how many numbers of them there are.
const LEAST: u64 = 2;

const THREADS: u64 = 15;

/// The sizes of a round, and what its calls are drawn by.
#[derive(Clone, Copy)]
pub struct Round {
    /// The number that its calls are drawn by.
    pub seed: u64,
    /// The place of its number of buckets.
    pub place: usize,
    /// How many threads shake its cache.
    pub threads: u64,
    /// The steps of each thread.
    pub steps: u64,
}

/// What is wrong about a cache.
#[derive(Debug, Drop)]
pub enum Wrong {
    /// The line of this stamp, counted from 1, is the first that no plain tree explains.
    Record(u64, Option<Stamp>),
    /// The tree isn't the one that the changes make.
    Tree,
    /// How many changes the cache counted, and how many there were.
    Clock(u64, u64),
    /// The tree was lost.
    Lost,
}

impl fmt::Display for Wrong {
    fn fmt<W: fmt::Write>(&self, f: &mut fmt::Formatter<W>) -> fmt::Result {
        match self {
            Wrong::Record(line, Some(stamp)) => write!(f, "record {line} is illegal: {stamp:?}"),
            Wrong::Record(line, None) => write!(f, "record {line} is illegal"),
            Wrong::Tree => f.write_str("the tree isn't the one that the changes make"),
            Wrong::Clock(counted, made) => {
                write!(
                    f,
                    "the cache counts {counted} changes, and {made} were made"
                )
            }
            Wrong::Lost => f.write_str("the tree was lost"),
        }
    }
}

impl Error for Wrong {}

/// What is left of a round that was played.
#[derive(Drop)]
pub struct Shaken {
    /// What the threads were answered.
    pub stamps: Vec<Stamp>,
    /// What the cache left. None if its tree was lost.
    pub ended: Option<Ended>,
    /// What was counted.
    pub tally: Tally,
}

/// What a round comes to.
#[derive(Drop)]
pub struct Played {
    /// What was counted.
    pub tally: Tally,
    /// What is wrong about its cache, if anything is.
    pub wrong: Option<Wrong>,
}

impl Round {
    /// The round of a number, with about this many calls.
    pub fn of(seed: u64, calls: u64) -> Round {
        let threads = LEAST.saturating_add(seed / SORTS as u64 % THREADS);
        Round {
            seed,
            place: (seed % SORTS as u64) as usize,
            threads,
            steps: calls.checked_div(threads).unwrap_or(1),
        }
    }

    /// How many buckets its cache has.
    pub fn buckets(&self) -> u64 {
        BUCKETS.get(self.place).copied().unwrap_or(1)
    }

    /// Has the threads shake a cache. Each has a pass that is split off, and that ends with it.
    pub fn storm<R: Threads + Wait + Sync>(
        &self,
        rt: &R,
        alloc: Global,
        cache: &Dcache,
        pass: &mut Pass,
    ) -> Result<Answers, NoMemory>
        requires sync { IsSync R.row }
        requires pass { Fits cache.now pass.old }
        ensures { Fits cache.now pass.new }
    {
        let gate = Gate::new(self.threads);
        let job = Job {
            alloc,
            seed: self.seed,
            steps: self.steps,
            gate: &gate,
        };
        let other = cache.split(pass);
        spread(rt, cache, job, other, 0, self.threads.saturating_sub(1))
    }

    /// Makes a cache, has the threads shake it, and closes it. Its size is right, so that only memory can
    /// be refused.
    pub fn shake<R: Threads + Wait + Sync>(
        &self,
        rt: &R,
        alloc: Global,
    ) -> Result<Shaken, MakeFault>
        requires { IsSync R.row }
    {
        let (cache, mut pass) = Dcache::new(alloc, self.buckets(), INODES)?;
        let Answers { stamps, mut tally } = self.storm(rt, alloc, &cache, &mut pass)?;
        let counts = cache.counts();
        let ended = cache.close(pass);
        let changes = ended.as_ref().map_or(0, |ended| ended.clock);
        tally.count_cache(&counts, changes);
        Ok(Shaken {
            stamps,
            ended,
            tally,
        })
    }

    /// Plays the round, and judges it.
    pub fn play<R: Threads + Wait + Sync>(&self, rt: &R, alloc: Global) -> Result<Played, NoMemory>
        requires { IsSync R.row }
    {
        let Shaken {
            stamps,
            ended,
            tally,
        } = self.shake(rt, alloc).map_err(|_| NoMemory)?;
        let wrong = judge(alloc, stamps, ended)?;
        Ok(Played { tally, wrong })
    }
}

/// The record of a line, counted from 1.
fn at_line(stamps: Vec<Stamp>, line: u64) -> Option<Stamp> {
    let mut stamps = stamps.into_iter();
    stamps.nth(line.checked_sub(1)? as usize)
}

/// What is wrong about the tree that a cache left, if anything is.
fn judge_tree(alloc: Global, stamps: &[Stamp], ended: &Ended) -> Result<Option<Wrong>, NoMemory> {
    let replay = Replay::of(alloc, stamps, INODES)?;
    if replay.clock != ended.clock {
        return Ok(Some(Wrong::Clock(ended.clock, replay.clock)));
    }
    let same = agree(alloc, &replay.store, &ended.store)?;
    Ok(if same { None } else { Some(Wrong::Tree) })
}

/// What is wrong about a cache, if anything is: the checker judges the records, and the tree that the cache
/// left is compared with that of a replay.
pub fn judge(
    alloc: Global,
    stamps: Vec<Stamp>,
    ended: Option<Ended>,
) -> Result<Option<Wrong>, NoMemory>
    // If nothing is wrong, the records are legal.
    ensures { IfOk result (λ wrong. wrong ≡ None → IsLegal INODES (stamps_of stamps.items)) }
{
    match check(alloc, INODES, &stamps)? {
        Verdict::BadReply(line) | Verdict::BadOrder(line) => {
            return Ok(Some(Wrong::Record(line, at_line(stamps, line))));
        }
        Verdict::Legal => {}
    }
    match ended {
        Some(ended) => judge_tree(alloc, &stamps, &ended),
        None => Ok(Some(Wrong::Lost)),
    }
}
