//! Gates: when a run calls them, and what stands written by then.

use crate::runs::USUAL;
use dc_serve::{Gate, ServeFault, run};
use std::alloc::Global;
use std::io::Write;
use std::sync::atomic::{AtomicBool, AtomicU64, Ordering};
use std::sync::{Mutex, Wait};
use std::thread::Threads;
use std::time::Duration;
use std::{io, thread};

/// Whether a gate was called before a command or after it.
#[derive(Clone, Copy, PartialEq, Eq)]
enum When {
    Before,
    After,
}

/// A call of a gate.
#[derive(Clone, Copy, PartialEq, Eq)]
struct GateCall {
    session: u64,
    line: u64,
    when: When,
}

/// Whether a gate's call is the one with this place among those around these lines, two for each.
fn is_nth(call: &GateCall, place: usize, lines: &[u64]) -> bool {
    let when = if place % 2 == 0 {
        When::Before
    } else {
        When::After
    };
    lines.get(place / 2) == Some(&call.line) && call.when == when
}

/// Writes down how it is called.
#[derive(Drop)]
struct Recorder<'a, R: Wait> {
    rt: &'a R,
    calls: Mutex<Vec<GateCall>>,
}

impl<'a, R: Wait> Recorder<'a, R> {
    fn new(rt: &'a R, alloc: Global) -> Recorder<'a, R> {
        Recorder {
            rt,
            calls: Mutex::new(Vec::new(alloc)),
        }
    }

    fn record(&self, session: u64, line: u64, when: When) {
        let call = GateCall {
            session,
            line,
            when,
        };
        let mut calls = self.calls.lock(self.rt);
        let _ = calls.push(call);
    }

    /// Whether the gate was called around these lines of a session, one after the other, and around no others.
    fn went_round(&self, session: u64, lines: &[u64]) -> bool {
        let calls = self.calls.lock(self.rt);
        let mut met = 0usize;
        for call in calls.iter() {
            if call.session == session {
                if !is_nth(call, met, lines) {
                    return false;
                }
                met = met.saturating_add(1);
            }
        }
        met / 2 == lines.len() && met % 2 == 0
    }
}

impl<R: Wait + Sync> Gate for Recorder<'_, R> {
    fn before(&self, session: u64, line: u64) {
        self.record(session, line, When::Before);
    }

    fn after(&self, session: u64, line: u64) {
        self.record(session, line, When::After);
    }
}

/// What a run with a gate comes to.
fn run_by<R: Threads + Wait + Sync>(
    rt: &R,
    alloc: Global,
    input: &[u8],
    gate: &Recorder<'_, R>,
) -> Result<(), ServeFault> {
    let mut rest = input;
    let mut output = Vec::new(alloc);
    run(rt, alloc, &mut rest, &mut output, USUAL, gate)
}

const GATED: &[u8] = b"1 look /\n0 look /x\nsync\n0 look /\n1 look /a\n1 look /b";

#[test]
fn gates_are_called_round_each_command(rt: HostRuntime) {
    let gate = Recorder::new(&rt, rt.alloc());
    assert!(rt; run_by(&rt, rt.alloc(), GATED, &gate) == Ok(()));
    assert!(rt; gate.went_round(0, &[2, 4]) && gate.went_round(1, &[1, 5, 6]));
    assert!(rt; gate.went_round(2, &[]));
}

/// No command is answered if a later line is bad.
#[test]
fn no_gate_is_called_before_a_bad_line(rt: HostRuntime) {
    let gate = Recorder::new(&rt, rt.alloc());
    let result = run_by(&rt, rt.alloc(), b"0 mkdir /a\nsync\n0 look\n", &gate);
    assert!(rt; result == Err(ServeFault::BadLine(3)));
    assert!(rt; gate.went_round(0, &[]));
}

/// Counts the bytes that it takes.
#[derive(Drop)]
struct Counting<'a> {
    count: &'a AtomicU64,
}

impl Write for Counting<'_> {
    fn write(&mut self, buf: &[u8]) -> io::Result<usize> {
        let before = self.count.load(Ordering::SeqCst);
        let count = before.wrapping_add(buf.len() as u64);
        self.count.store(count, Ordering::SeqCst);
        Ok(buf.len())
    }

    fn flush(&mut self) -> io::Result<()> {
        Ok(())
    }
}

/// Looks how many bytes stand written when the command of a line begins.
#[derive(Drop)]
struct Looking<'a> {
    count: &'a AtomicU64,
    line: u64,
    seen: AtomicU64,
}

impl Gate for Looking<'_> {
    fn before(&self, _session: u64, line: u64) {
        if line == self.line {
            let count = self.count.load(Ordering::SeqCst);
            self.seen.store(count, Ordering::SeqCst);
        }
    }

    fn after(&self, _session: u64, _line: u64) {}
}

/// Lines, and how many bytes stand written when their commands begin.
static WRITTEN: [(u64, u64); 4] = [(1, 0), (2, 0), (4, 20), (6, 34)];

/// What a run of three phases comes to, how many bytes stand written when the command of a line begins, and how
/// many in the end.
fn written_by<R: Threads + Wait + Sync>(
    rt: &R,
    alloc: Global,
    line: u64,
) -> (Result<(), ServeFault>, u64, u64) {
    let count = AtomicU64::new(0);
    let gate = Looking {
        count: &count,
        line,
        seen: AtomicU64::new(u64::MAX),
    };
    let mut writer = Counting { count: &count };
    let mut rest = b"0 mkdir /a\n0 mkdir /b\nsync\n1 look /a\nsync\n2 look /\n".as_slice();
    let result = run(rt, alloc, &mut rest, &mut writer, USUAL, &gate);
    (
        result,
        gate.seen.load(Ordering::SeqCst),
        count.load(Ordering::SeqCst),
    )
}

/// The replies of a phase stand written when the next one runs, and none before it is over.
#[test]
fn phases_are_written_one_after_the_other(rt: HostRuntime) {
    for (line, bytes) in WRITTEN.iter() {
        assert!(rt;
            written_by(&rt, rt.alloc(), *line) == (Ok(()), *bytes, 48),
            "{line}"
        );
    }
}

/// How many turns a gate waits, each a millisecond.
const MOST_TURNS: u32 = 10_000;

/// Session 0 is in its command from before session 1 begins its own until that is answered. A session
/// that waits in vain is late.
#[derive(Drop)]
struct Meeting<'a> {
    clock: &'a HostRuntime,
    begun: AtomicBool,
    answered: AtomicBool,
    late: AtomicBool,
}

impl Meeting<'_> {
    fn wait_for(&self, flag: &AtomicBool) {
        for _ in 0..MOST_TURNS {
            if flag.load(Ordering::SeqCst) {
                return;
            }
            thread::sleep(self.clock, Duration::from_millis(1));
        }
        self.late.store(true, Ordering::SeqCst);
    }
}

impl Gate for Meeting<'_> {
    fn before(&self, session: u64, _line: u64) {
        if session == 0 {
            self.begun.store(true, Ordering::SeqCst);
            self.wait_for(&self.answered);
        } else {
            self.wait_for(&self.begun);
        }
    }

    fn after(&self, session: u64, _line: u64) {
        if session == 1 {
            self.answered.store(true, Ordering::SeqCst);
        }
    }
}

/// Sessions run at the same time: served one after the other, each would wait for the other in vain.
#[test]
fn sessions_meet(rt: HostRuntime) {
    let gate = Meeting {
        clock: &rt,
        begun: AtomicBool::new(false),
        answered: AtomicBool::new(false),
        late: AtomicBool::new(false),
    };
    let mut rest = b"0 look /\n1 look /\n".as_slice();
    let mut output = Vec::new(rt.alloc());
    let result = run(&rt, rt.alloc(), &mut rest, &mut output, USUAL, &gate);
    assert!(rt; result == Ok(()) && !gate.late.load(Ordering::SeqCst));
    assert!(rt; output.as_slice() == b"0 is 1 dir @0\n1 is 1 dir @0\n".as_slice());
}
