//! Readers and writers that fail, end or give little at a time, and what a run makes of them.

use crate::runs::USUAL;
use dc_serve::{FreeGate, ServeFault, run};
use std::alloc::Global;
use std::io;
use std::io::{Read, Write};
use std::sync::Wait;
use std::thread::Threads;

/// What a stream does once it has given or taken this many bytes.
#[derive(Clone, Copy, Debug, Drop)]
enum Turn {
    /// It gives or takes no byte from then on.
    Ends,
    /// It fails from then on.
    Fails,
    /// It fails once, and goes on as if nothing had happened.
    FailsOnce,
    /// It gives or takes no byte once, and goes on.
    PausesOnce,
}

impl Turn {
    /// Whether the next call fails, and what the turn is then: `None` if it is over.
    fn taken(self) -> (bool, Option<Turn>) {
        match self {
            Turn::Ends => (false, Some(self)),
            Turn::Fails => (true, Some(self)),
            Turn::FailsOnce => (true, None),
            Turn::PausesOnce => (false, None),
        }
    }
}

/// Gives lines that look the root up, a byte at a time, `left` of them up to its turn.
#[derive(Drop)]
struct ByteByByte {
    given: usize,
    left: u32,
    turn: Option<Turn>,
    reads: u32,
}

impl Read for ByteByByte {
    fn read(&mut self, buf: &mut [u8]) -> io::Result<usize> {
        self.reads = self.reads.saturating_add(1);
        if buf.is_empty() {
            return Ok(0);
        }
        if let (0, Some(turn)) = (self.left, self.turn) {
            let (fails, next) = turn.taken();
            self.turn = next;
            if fails {
                return Err(io::Error::from(io::ErrorKind::Interrupted));
            }
            return Ok(0);
        }
        self.left = self.left.saturating_sub(1);
        buf[0] = b"0 look /\n"[self.given % 9];
        self.given = (self.given % 9 + 1) % 9;
        Ok(1)
    }
}

/// What a run makes of a reader of bytes one by one, and how often it reads.
fn read_from<R: Threads + Wait + Sync>(
    rt: &R,
    alloc: Global,
    left: u32,
    turn: Turn,
) -> (Result<(), ServeFault>, u32, bool) {
    let mut reader = ByteByByte {
        given: 0,
        left,
        turn: Some(turn),
        reads: 0,
    };
    let mut output = Vec::new(alloc);
    let result = run(rt, alloc, &mut reader, &mut output, USUAL, &FreeGate);
    (result, reader.reads, output.is_empty())
}

/// How many bytes a reader gives up to its turn, and what a run makes of it, and how often it reads.
static ENDS: [(u32, Turn, Result<(), ServeFault>, u32); 5] = [
    (18, Turn::Ends, Ok(()), 19),
    (18, Turn::PausesOnce, Ok(()), 19),
    // The longest input isn't refused by its reader: its last line breaks off.
    (
        1_048_576,
        Turn::Ends,
        Err(ServeFault::BadLine(116_509)),
        1_048_577,
    ),
    (1_048_577, Turn::Ends, Err(ServeFault::Read), 1_048_577),
    (u32::MAX, Turn::Ends, Err(ServeFault::Read), 1_048_577),
];

/// Whether a run makes this of a reader, and reads this often.
fn ends_so<R: Threads + Wait + Sync>(
    rt: &R,
    alloc: Global,
    left: u32,
    turn: Turn,
    want: Result<(), ServeFault>,
    reads: u32,
) -> bool {
    let (result, made, _) = read_from(rt, alloc, left, turn);
    result == want && made == reads
}

/// Whether a run reads no more from a reader that failed, and answers nothing.
fn fails_at_once<R: Threads + Wait + Sync>(rt: &R, alloc: Global, left: u32, turn: Turn) -> bool {
    let (result, reads, nothing) = read_from(rt, alloc, left, turn);
    result == Err(ServeFault::Read) && nothing && reads == left.saturating_add(1)
}

/// A read that fails or ends is not tried again, and nothing is answered after a fault.
#[test]
fn inputs_that_end_badly(rt: HostRuntime) {
    for (left, turn, want, reads) in ENDS.iter() {
        assert!(rt;
            ends_so(&rt, rt.alloc(), *left, *turn, *want, *reads),
            "{left}"
        );
    }
    for left in 0..19 {
        assert!(rt; fails_at_once(&rt, rt.alloc(), left, Turn::Fails), "{left}");
        assert!(rt;
            fails_at_once(&rt, rt.alloc(), left, Turn::FailsOnce),
            "{left}"
        );
    }
}

/// Takes a byte at each write, `room` of them up to its turn.
#[derive(Drop)]
struct Taker {
    taken: Vec<u8>,
    room: usize,
    turn: Option<Turn>,
    flushes: u32,
    refuses_flush: bool,
}

impl Write for Taker {
    fn write(&mut self, buf: &[u8]) -> io::Result<usize> {
        if buf.is_empty() {
            return Ok(0);
        }
        if let (true, Some(turn)) = (self.taken.len() >= self.room, self.turn) {
            let (fails, next) = turn.taken();
            self.turn = next;
            if fails {
                return Err(io::Error::from(io::ErrorKind::Interrupted));
            }
            return Ok(0);
        }
        self.taken.push(buf[0])?;
        Ok(1)
    }

    fn flush(&mut self) -> io::Result<()> {
        self.flushes = self.flushes.saturating_add(1);
        if self.refuses_flush {
            return Err(io::Error::from(io::ErrorKind::Other));
        }
        Ok(())
    }
}

const INPUT: &[u8] = b"0 mkdir /a\nsync\n0 look /a\n";

const OUTPUT: &[u8] = b"0 ok 2 @0\n0 is 2 dir @1\n";

/// What a run makes of a writer that takes bytes one by one.
fn write_to<R: Threads + Wait + Sync>(
    rt: &R,
    alloc: Global,
    room: usize,
    turn: Turn,
    refuses_flush: bool,
) -> (Result<(), ServeFault>, Taker) {
    let mut writer = Taker {
        taken: Vec::new(alloc),
        room,
        turn: Some(turn),
        flushes: 0,
        refuses_flush,
    };
    let mut rest = INPUT;
    let result = run(rt, alloc, &mut rest, &mut writer, USUAL, &FreeGate);
    (result, writer)
}

/// Whether a run writes everything to a writer that takes it, flushes once, and makes this of it.
fn is_taken<R: Threads + Wait + Sync>(
    rt: &R,
    alloc: Global,
    refuses_flush: bool,
    want: Result<(), ServeFault>,
) -> bool {
    let (result, writer) = write_to(rt, alloc, usize::MAX, Turn::Ends, refuses_flush);
    result == want && writer.taken.as_slice() == OUTPUT && writer.flushes == 1
}

/// A text is written whole to a writer that takes it byte by byte, and is flushed once.
#[test]
fn outputs_that_are_taken(rt: HostRuntime) {
    assert!(rt; is_taken(&rt, rt.alloc(), false, Ok(())));
    assert!(rt; is_taken(&rt, rt.alloc(), true, Err(ServeFault::Write)));
}

/// Whether a run writes no more to a writer that has no more room, and flushes nothing.
fn stops_at_once<R: Threads + Wait + Sync>(rt: &R, alloc: Global, room: usize, turn: Turn) -> bool {
    let (result, writer) = write_to(rt, alloc, room, turn, false);
    result == Err(ServeFault::Write)
        && OUTPUT.get(..room) == Some(writer.taken.as_slice())
        && writer.flushes == 0
}

static TURNS: [Turn; 4] = [Turn::Ends, Turn::PausesOnce, Turn::Fails, Turn::FailsOnce];

/// A write that fails or takes nothing is not tried again, wherever it stands, and nothing is flushed.
#[test]
fn outputs_that_end_badly(rt: HostRuntime) {
    for room in 0..OUTPUT.len() {
        for turn in TURNS.iter() {
            assert!(rt;
                stops_at_once(&rt, rt.alloc(), room, *turn),
                "{room} {turn:?}"
            );
        }
    }
}
