//! Where threads wait for one another before they begin.

use std::rt::Clock;
use std::sync::atomic::{AtomicU64, Ordering};
use std::time::{Duration, Instant};

/// The seconds of the longest wait: past it a thread begins alone, as if another couldn't be
/// started.
const LONGEST: u64 = 1;

/// A gate for this many threads.
#[derive(Drop)]
pub struct Gate {
    arrived: AtomicU64,
    expected: u64,
}

impl Gate {
    pub fn new(expected: u64) -> Gate {
        Gate {
            arrived: AtomicU64::new(0),
            expected,
        }
    }

    /// Whether there is nothing left to wait for.
    fn is_open<R: Clock>(&self, rt: &R, start: Instant) -> bool {
        self.arrived.load(Ordering::SeqCst) >= self.expected
            || start
                .elapsed(rt)
                .is_ok_and(|waited| waited >= Duration::from_secs(LONGEST))
    }

    /// Waits until all have come, and answers when that was. None if the clock can't be read.
    pub fn pass<R: Clock>(&self, rt: &R) -> Option<Instant> {
        let start = Instant::now(rt).ok()?;
        self.arrived.fetch_add(1, Ordering::SeqCst);
        for _ in 0..u64::MAX {
            if self.is_open(rt, start) {
                break;
            }
        }
        Instant::now(rt).ok()
    }
}
