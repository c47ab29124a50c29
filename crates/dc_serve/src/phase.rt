//! How a phase is served: each session that has lines in a thread of its own, with a pass of its own. The
//! thread that serves the phase is that of the lowest session.

ghost use Rattle.std.specs.Prelude.{◌≡◌, ◌<◌, ◌⊎◌, true, false, [], length, None, Result, IfOk, IfErr, IfSome, IsErrOf};
ghost use Rattle.std.specs.Thread.{IsSync};
ghost use Rattle.dc_cache.specs.Passes.{share, Fits};
ghost use Rattle.dc_cache.specs.declared.cache.Pass.{Pass};
ghost use Rattle.dc_lang.specs.Commands.{meaning_of};
ghost use Rattle.dc_serve.specs.Bytes.{IsServiceFault};
ghost use Rattle.dc_lang.specs.Phases.{by_session, ordered, ordered_by};
ghost use Rattle.dc_serve.specs.Served.{AddsBoth, EndsSession, Gives, IsHighest, IsLowest, NoLines, ObeysBelow, ServesDownFrom, TakesIn};
ghost use Rattle.dc_serve.specs.Sessions.{SameShare, TookInSome};
ghost use Rattle.dc_serve.specs.Threads.{GaveBack, Returns, book, is_order_of};
ghost use Rattle.dc_serve.specs.declared.fault.ServeFault.{ServeFault};
ghost use Rattle.dc_serve.specs.declared.fault.ServeFault.TheVariants.{NoMemory};
ghost use Rattle.dc_serve.specs.declared.session.SessionReplies.{SessionReplies};

use crate::session::{Phase, SessionReplies};
use crate::{Gate, ServeFault};
use dc_cache::{Dcache, Pass};
use dc_lang::{Line, SESSION_COUNT, SESSIONS};
use std::alloc::Global;
use std::snapshot::Snapshot;
use std::sync::Wait;
use std::sync::atomic::{AtomicU64, Ordering};
use std::thread;
use std::thread::{Promise, PromisedHandle, Scope, Threads};

/// What a phase is answered, a text for each session that has lines, and where each session starts from
/// then on.
#[derive(Drop)]
pub struct PhaseReplies {
    pub texts: Vec<Vec<u8>>,
    pub bases: [u64; SESSION_COUNT],
}

/// The pass that a session was served with, and what the session was answered.
type Back = (Pass, Result<SessionReplies, ServeFault>);

/// What a session's thread is handed: it serves these lines of the session, which starts at `base`.
#[derive(Drop)]
pub struct Handed<'a> {
    pub cache: &'a Dcache,
    pub pass: Snapshot<Pass>,
    pub session: u64,
    pub base: u64,
    pub lines: &'a [Line],
}

impl<'a> Promise<Back> for Handed<'a> {
    ghost kept_by = { Returns };
}

fn is_of(session: u64, line: &Line) -> bool
    ensures { result ≡ is_order_of session (meaning_of line.now) }
{
    match line {
        Line::Command(command) => command.session == session,
        Line::Sync => false,
    }
}

/// Whether a session has a line.
fn has_lines(session: u64, lines: &[Line]) -> bool
    ensures none { result ≡ false → ordered_by session lines.now ≡ [] }
    ensures some { result ≡ true → 0 < length (ordered_by session lines.now) }
{
    for line in lines {
        if is_of(session, line) {
            return true;
        }
    }
    false
}

/// The replies of some sessions, and of one more.
fn with_session(
    others: Result<PhaseReplies, ServeFault>,
    session: u64,
    told: Result<SessionReplies, ServeFault>,
) -> Result<PhaseReplies, ServeFault>
    requires { session < SESSIONS }
    ensures ok { IfOk result (AddsBoth others session told) }
    ensures err { IfErr result (λ fault.
        (fault ≡ NoMemory) ⊎ (IsErrOf others fault ⊎ IsErrOf told fault)) }
{
    let mut replies = others?;
    let told = told?;
    replies.texts.push(told.text)?;
    replies.bases[session as usize] = told.base;
    Ok(replies)
}

/// Takes in what a session gave back, behind the sessions below it.
fn take_in(
    cache: &Dcache,
    pass: &mut Pass,
    others: Result<PhaseReplies, ServeFault>,
    session: u64,
    back: Back,
) -> Result<PhaseReplies, ServeFault>
    requires pass { Fits cache.now pass.old × Fits cache.now back.0 }
    requires session { session < SESSIONS }
    ensures { TakesIn cache.now pass.old others session back pass.new result }
{
    let (child, told) = back;
    cache.join(pass, child);
    with_session(others, session, told)
}

/// Ends a session, behind the sessions below it: takes in what its thread gives back, or what came back
/// at once if none could be started.
// Not inlined: a pass is large, and would lie on the stack once more for each session.
#[inline(never)]
fn end<R: Threads>(
    rt: &R,
    cache: &Dcache,
    pass: &mut Pass,
    others: Result<PhaseReplies, ServeFault>,
    session: u64,
    started: Result<PromisedHandle<Back, Handed<'_>>, Back>,
) -> Result<PhaseReplies, ServeFault>
    requires pass { Fits cache.now pass.old }
    requires session { session < SESSIONS }
    requires started { (back : (Pass × Result SessionReplies ServeFault)) → Gives started back
        → Fits cache.now back.0 }
    ensures { EndsSession cache.now started.entry pass.old others session pass.new result }
{
    let back = match started {
        Ok(handle) => handle.join(rt),
        Err(back) => back,
    };
    take_in(cache, pass, others, session, back)
}

/// Starts a session's thread, which serves what it is handed with the pass and gives the pass back.
/// If none can be started, the session is refused, and its pass comes back at once.
fn start<'s, E, R: Wait + Sync, G: Gate>(
    rt: &'s R,
    scope: &'s Scope<'s, E>,
    phase: &Phase<'s, G>,
    handed: Handed<'s>,
    child: Pass,
) -> Result<PromisedHandle<Back, Handed<'s>>, Back>
    requires { Fits handed.cache.now child × (handed.pass.value ≡ child) }
    ensures started { IfOk result (λ handle. handle.promise ≡ handed.entry) }
    ensures refused { IfErr result (Returns handed.entry) }
{
    let (cache, lines, session, base) = (handed.cache, handed.lines, handed.session, handed.base);
    let (alloc, first, gate, refused) = (phase.alloc, phase.first, phase.gate, phase.refused);
    let started = scope.spawn_with(
        handed,
        move || -> Back
            requires { IsSync R.row × IsSync G.row × Fits cache.now child }
            ensures { GaveBack cache.entry.now child base (ordered_by session lines.entry.now)
                result.0 result.1 }
        {
            let phase = Phase {
                cache,
                alloc,
                first,
                lines,
                gate,
                refused,
            };
            phase.serve_session(rt, child, session, base)
        },
    );
    match started {
        Ok(handle) => Ok(handle),
        Err(left) => {
            // The pass of a thread that couldn't be started lies in its closure, and a dropped pass
            // would take its part of the whole with it. So the closure is called, which sees that
            // its session is refused and gives the pass back.
            refused.store(session, Ordering::SeqCst);
            Err((left.value)())
        }
    }
}

/// The highest session below `count` that has a line.
fn highest(count: u64, lines: &[Line]) -> Option<u64>
    ensures none { result ≡ None → NoLines 0 count lines.now }
    ensures some { IfSome result (IsHighest count lines.now) }
{
    if count == 0 {
        return None;
    }
    let session = count - 1;
    if has_lines(session, lines) {
        return Some(session);
    }
    highest(session, lines)
}

/// Serves the lowest session that has lines, on this thread, with a pass of its own that is taken in. If
/// others have lines, their threads run meanwhile.
fn serve_here<R: Wait, G: Gate>(
    rt: &R,
    phase: &Phase<'_, G>,
    pass: &mut Pass,
    session: u64,
    bases: [u64; SESSION_COUNT],
) -> Result<PhaseReplies, ServeFault>
    requires pass { Fits phase.now.cache.now pass.old }
    requires session { session < SESSIONS }
    requires lowest { IsLowest session phase.now.lines.now }
    ensures { ServesDownFrom phase.now.cache.now session phase.now.lines.now bases
        pass.old pass.new result }
{
    let mut child = phase.cache.split(pass);
    let told = phase.serve_lines(rt, &mut child, session, bases[session as usize]);
    phase.cache.join(pass, child);
    let nobody = PhaseReplies {
        texts: Vec::new(phase.alloc),
        bases,
    };
    with_session(Ok(nobody), session, told)
}

/// Serves a session that has lines and those below it that have some, each in a thread of its own with a
/// pass of its own, and takes these passes in. This thread serves the lowest, as it would wait for it
/// otherwise. A session stops at its first fault; the others run to their ends.
fn serve_down_from<'s, E, R: Threads + Wait + Sync, G: Gate>(
    rt: &'s R,
    scope: &'s Scope<'s, E>,
    phase: &Phase<'s, G>,
    pass: &mut Pass,
    session: u64,
    bases: [u64; SESSION_COUNT],
) -> Result<PhaseReplies, ServeFault>
    requires pass { Fits phase.now.cache.now pass.old }
    requires session { session < SESSIONS }
    requires some { 0 < length (ordered_by session phase.now.lines.now) }
    ensures { ServesDownFrom phase.now.cache.now session phase.now.lines.now bases
        pass.old pass.new result }
{
    let Some(below) = highest(session, phase.lines) else {
        return serve_here(rt, phase, pass, session, bases);
    };
    let child = phase.cache.split(pass);
    let handed = Handed {
        cache: phase.cache,
        pass: Snapshot::of(&child),
        session,
        base: bases[session as usize],
        lines: phase.lines,
    };
    let started = start(rt, scope, phase, handed, child);
    let others = serve_down_from(rt, scope, phase, pass, below, bases);
    end(rt, phase.cache, pass, others, session, started)
}

/// Serves several sessions, of which this one is the highest.
fn serve_beside<R: Threads + Wait + Sync, G: Gate>(
    rt: &R,
    phase: &Phase<'_, G>,
    pass: Pass,
    top: u64,
    bases: [u64; SESSION_COUNT],
) -> (Pass, Result<PhaseReplies, ServeFault>)
    requires pass { Fits phase.now.cache.now pass }
    requires session { top < SESSIONS }
    requires some { 0 < length (ordered_by top phase.now.lines.now) }
    ensures { ServesDownFrom phase.now.cache.now top phase.now.lines.now bases
        pass result.0 result.1 }
{
    let (cache, lines, gate) = (phase.cache, phase.lines, phase.gate);
    let (alloc, first, refused) = (phase.alloc, phase.first, phase.refused);
    thread::scope(
        thread::scope_env(),
        rt,
        move |scope| -> (Pass, Result<PhaseReplies, ServeFault>)
            requires pass { IsSync R.row × IsSync G.row × Fits cache.now pass }
            requires some { 0 < length (ordered_by top lines.now) × (top < SESSIONS) }
            ensures { ServesDownFrom cache.entry.now top lines.entry.now bases
                pass result.0 result.1 }
        {
            let phase = Phase {
                cache,
                alloc,
                first,
                lines,
                gate,
                refused,
            };
            let mut pass = pass;
            let replies = serve_down_from(rt, scope, &phase, &mut pass, top, bases);
            (pass, replies)
        },
    )
}

/// Serves a phase: each session that has lines in a thread of its own, of which this one is the lowest's.
/// So a phase of one session, of which an input may have a hundred thousand, starts none.
pub fn serve_phase<R: Threads + Wait + Sync, G: Gate>(
    rt: &R,
    phase: &Phase<'_, G>,
    mut pass: Pass,
    bases: [u64; SESSION_COUNT],
) -> (Pass, Result<PhaseReplies, ServeFault>)
    requires { Fits phase.now.cache.now pass }
    ensures pass { Fits phase.now.cache.now result.0 × SameShare (share pass) (share result.0) }
    ensures took_in { TookInSome (length (by_session (ordered phase.now.lines.now)))
        (book pass) (book result.0) }
    ensures ok { IfOk result.1 (ObeysBelow SESSIONS phase.now.lines.now bases pass result.0) }
    ensures err { IfErr result.1 (IsServiceFault (book result.0).seen) }
{
    let Some(top) = highest(SESSIONS, phase.lines) else {
        let texts = Vec::new(phase.alloc);
        return (pass, Ok(PhaseReplies { texts, bases }));
    };
    if highest(top, phase.lines).is_none() {
        let replies = serve_here(rt, phase, &mut pass, top, bases);
        return (pass, replies);
    }
    serve_beside(rt, phase, pass, top, bases)
}
