//! Look-ups and changes in turns, by one thread of several.

ghost use Rattle.dc_cache.specs.Passes.{Fits};

use crate::gate::Gate;
use crate::own::Own;
use crate::tally::{Tally, a_second};
use crate::tree::change;
use crate::work::{Miss, Work};
use dc_cache::{Dcache, Fast, Follow, Pass, PathText, ROOT, Reply, parse};
use std::alloc::Global;
use std::rt::Clock;
use std::sync::Wait;
use std::time::{Duration, Instant};

/// How many calls a turn has, which is timed as a whole, without the changes in between.
const TURN: usize = 64;

/// What all threads of a run share.
#[derive(Clone, Copy)]
pub struct Looks<'a> {
    pub alloc: Global,
    pub work: Work,
    /// The paths in the order of the look-ups: each thread begins at another place.
    pub paths: &'a [PathText<'a>],
    /// The texts of the paths whose files are changed in between.
    pub files: &'a [&'a [u8]],
    pub threads: u64,
    pub time: Duration,
    pub miss: Miss,
    pub gate: &'a Gate,
}

/// Looks a path up after the rows gave up: by rows that are filled for it one by one, else as `look` goes
/// on.
// Kept out of the loop that is timed: few look-ups come to it.
#[cold]
#[inline(never)]
fn look_slowly<R: Wait>(
    rt: &R,
    alloc: Global,
    cache: &Dcache,
    pass: &mut Pass,
    path: PathText<'_>,
    tally: &mut Tally,
) -> Reply
    requires { Fits cache.now pass.old }
    ensures { Fits cache.now pass.new }
{
    if let Fast::Done(found) = cache.look_counted(rt, alloc, pass, ROOT, path, Follow::Yes) {
        tally.by_rows = tally.by_rows.saturating_add(1);
        return found.reply;
    }
    tally.by_lock = tally.by_lock.saturating_add(1);
    cache
        .look(rt, alloc, pass, ROOT, path.bytes(), Follow::Yes)
        .reply
}

/// Whether a reply says that a path leads somewhere.
fn is_found(reply: &Reply) -> bool {
    matches!(reply, Reply::Found(_, _))
}

/// Looks a path up, and counts how it was answered.
pub fn look<R: Wait>(
    rt: &R,
    alloc: Global,
    cache: &Dcache,
    pass: &mut Pass,
    path: PathText<'_>,
    tally: &mut Tally,
) -> Reply
    requires { Fits cache.now pass.old }
    ensures { Fits cache.now pass.new }
{
    match cache.look_fast(pass, ROOT, path, Follow::Yes) {
        Fast::Done(found) => found.reply,
        Fast::Again(why) => {
            tally.causes.count(&why);
            look_slowly(rt, alloc, cache, pass, path, tally)
        }
    }
}

/// Whether a path leads somewhere, counted as `look` counts; but for `resolve`, which doesn't tell
/// whether it took the lock. The reply is read where it stands: to move it is the benchmark's time and not
/// the cache's.
#[inline(always)]
fn finds<R: Wait>(
    rt: &R,
    alloc: Global,
    cache: &Dcache,
    pass: &mut Pass,
    path: PathText<'_>,
    miss: Miss,
    tally: &mut Tally,
) -> bool
    requires { Fits cache.now pass.old }
    ensures { Fits cache.now pass.new }
{
    if let Miss::OneHold = miss {
        tally.untold = tally.untold.saturating_add(1);
        let found = cache.resolve(rt, alloc, pass, ROOT, path.bytes(), Follow::Yes);
        return is_found(&found.reply);
    }
    match &cache.look_fast(pass, ROOT, path, Follow::Yes) {
        Fast::Done(found) => is_found(&found.reply),
        Fast::Again(why) => {
            tally.causes.count(why);
            is_found(&look_slowly(rt, alloc, cache, pass, path, tally))
        }
    }
}

/// Looks the paths of a turn up, and answers how many lead somewhere.
fn look_each<R: Wait>(
    rt: &R,
    alloc: Global,
    cache: &Dcache,
    pass: &mut Pass,
    paths: &[PathText<'_>],
    miss: Miss,
    tally: &mut Tally,
) -> u64
    requires { Fits cache.now pass.old }
    ensures { Fits cache.now pass.new }
{
    let mut found = 0u64;
    for path in paths {
        let is_there = finds(rt, alloc, cache, pass, *path, miss, tally);
        found = found.wrapping_add(u64::from(is_there));
    }
    found
}

/// Whether a text is a path that leads somewhere.
// Inlined, as is `finds`.
#[inline(always)]
fn finds_text<R: Wait>(
    rt: &R,
    alloc: Global,
    cache: &Dcache,
    pass: &mut Pass,
    text: &[u8],
    miss: Miss,
    tally: &mut Tally,
) -> bool
    requires { Fits cache.now pass.old }
    ensures { Fits cache.now pass.new }
{
    match parse(text) {
        Ok(path) => finds(rt, alloc, cache, pass, path, miss, tally),
        Err(_) => false,
    }
}

/// Looks the paths of a turn up by their texts, each of which is tested first, as in a call from C.
fn look_texts<R: Wait>(
    rt: &R,
    alloc: Global,
    cache: &Dcache,
    pass: &mut Pass,
    paths: &[PathText<'_>],
    miss: Miss,
    tally: &mut Tally,
) -> u64
    requires { Fits cache.now pass.old }
    ensures { Fits cache.now pass.new }
{
    let mut found = 0u64;
    for text in paths {
        let is_there = finds_text(rt, alloc, cache, pass, text.bytes(), miss, tally);
        found = found.wrapping_add(u64::from(is_there));
    }
    found
}

/// Makes the thread's next change, and counts it if the tree was asked.
pub fn change_next<R: Wait>(
    rt: &R,
    alloc: Global,
    cache: &Dcache,
    pass: &mut Pass,
    own: &mut Own,
    tally: &mut Tally,
)
    requires { Fits cache.now pass.old }
    ensures { Fits cache.now pass.new }
{
    if let Some(call) = own.next() {
        change(rt, alloc, cache, pass, &call, tally);
    }
    own.step();
}

/// Looks paths up, with a change after each `few` of them. Answers how many lead somewhere.
fn look_and_change<R: Wait>(
    rt: &R,
    alloc: Global,
    cache: &Dcache,
    pass: &mut Pass,
    paths: &[PathText<'_>],
    few: usize,
    miss: Miss,
    own: &mut Own,
    tally: &mut Tally,
) -> u64
    requires { Fits cache.now pass.old }
    ensures { Fits cache.now pass.new }
{
    let mut found = 0u64;
    'parts: for part in paths.chunks(few.max(1)) {
        found = found.wrapping_add(look_each(rt, alloc, cache, pass, part, miss, tally));
        change_next(rt, alloc, cache, pass, own, tally);
    }
    found
}

/// Makes the changes of a turn.
fn change_each<R: Wait>(
    rt: &R,
    alloc: Global,
    cache: &Dcache,
    pass: &mut Pass,
    own: &mut Own,
    tally: &mut Tally,
)
    requires { Fits cache.now pass.old }
    ensures { Fits cache.now pass.new }
{
    'changes: for _ in 0..TURN {
        change_next(rt, alloc, cache, pass, own, tally);
    }
}

impl<'a> Looks<'a> {
    /// One turn.
    fn turn<R: Wait>(
        &self,
        rt: &R,
        cache: &Dcache,
        pass: &mut Pass,
        paths: &[PathText<'_>],
        own: &mut Own,
        tally: &mut Tally,
    )
        requires { Fits cache.now pass.old }
        ensures { Fits cache.now pass.new }
    {
        let (alloc, miss) = (self.alloc, self.miss);
        let found = match self.work.looks_to_a_change() {
            None if matches!(self.work, Work::Texts) => {
                look_texts(rt, alloc, cache, pass, paths, miss, tally)
            }
            None => look_each(rt, alloc, cache, pass, paths, miss, tally),
            Some(0) => {
                change_each(rt, alloc, cache, pass, own, tally);
                0
            }
            Some(few) => look_and_change(rt, alloc, cache, pass, paths, few, miss, own, tally),
        };
        tally.found = tally.found.saturating_add(found);
        tally.looks = tally.looks.saturating_add(paths.len() as u64);
    }

    /// Where the paths of a thread's turn begin.
    fn begin_of(&self, thread: u64, turn: u64) -> usize {
        let turns = self.paths.len().div_ceil(TURN) as u64;
        let share = turns.checked_div(self.threads).unwrap_or(0);
        let at = turn.wrapping_add(share.saturating_mul(thread));
        (at.checked_rem(turns).unwrap_or(0) as usize).saturating_mul(TURN)
    }

    /// The paths of a thread's turn.
    fn paths_of(&self, thread: u64, turn: u64) -> &'a [PathText<'a>] {
        let begin = self.begin_of(thread, turn).min(self.paths.len());
        let (_, rest) = self.paths.split_at(begin);
        let (paths, _) = rest.split_at(rest.len().min(TURN));
        paths
    }

    /// Times turns until the time is over. None if the clock can't be read.
    fn time_turns<R: Wait + Clock>(
        &self,
        rt: &R,
        cache: &Dcache,
        pass: &mut Pass,
        thread: u64,
        own: &mut Own,
        tally: &mut Tally,
    ) -> Option<()>
        requires { Fits cache.now pass.old }
        ensures { Fits cache.now pass.new }
    {
        let begin = self.gate.pass(rt)?;
        let mut last = begin;
        'turns: for turn in 0..u64::MAX {
            let before = tally.calls();
            self.turn(rt, cache, pass, self.paths_of(thread, turn), own, tally);
            let now = Instant::now(rt).ok()?;
            let calls = tally.calls().saturating_sub(before);
            tally.turn(now.saturating_duration_since(last), calls);
            last = now;
            if now.saturating_duration_since(begin) >= self.time {
                break;
            }
        }
        tally.rate = a_second(tally.calls(), last.saturating_duration_since(begin));
        Some(())
    }

    /// What a thread does: the time's worth of calls.
    pub fn run<R: Wait + Clock>(
        &self,
        rt: &R,
        cache: &Dcache,
        pass: &mut Pass,
        thread: u64,
    ) -> Tally
        requires { Fits cache.now pass.old }
        ensures { Fits cache.now pass.new }
    {
        let mut tally = Tally::new(self.alloc);
        if let Ok(mut own) = Own::new(self.alloc, self.work, self.files, thread, self.threads) {
            let _ = self.time_turns(rt, cache, pass, thread, &mut own, &mut tally);
        }
        tally
    }
}
