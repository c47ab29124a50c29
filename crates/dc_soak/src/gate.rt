//! Where threads wait for one another, so that they begin together.

use std::sync::atomic::{AtomicU64, Ordering};

/// How often a thread looks whether the others have come. Then it begins alone, as if a thread couldn't be
/// started.
const MOST_LOOKS: u64 = 4_000_000;

/// A gate for this many threads.
#[derive(Drop)]
pub struct Gate {
    arrived: AtomicU64,
    expected: u64,
}

impl Gate {
    pub fn new(expected: u64) -> Gate {
        Gate {
            arrived: AtomicU64::new(0),
            expected,
        }
    }

    /// Waits until all have come.
    pub fn pass(&self) {
        self.arrived.fetch_add(1, Ordering::SeqCst);
        for _ in 0..MOST_LOOKS {
            if self.arrived.load(Ordering::SeqCst) >= self.expected {
                break;
            }
        }
    }
}
