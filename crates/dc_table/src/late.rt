//! How a thread waits for the lock, and how one that is passed over gets it.
//!
//! The thread that gives the lock back is awake, and may have it again before the sleeper that it woke
//! looks: so a sleeper might be passed over for ever. A pass that has slept `PATIENCE` times in vain is
//! late, and draws a ticket. While tickets are out, only the pass with the next one tries; all others that
//! wait sleep, also those that have just come. `try_lock` doesn't look at tickets.
//!
//! A late pass whose thread is stopped would keep all others off. So no sleep is longer than `NAP`, and
//! after `MOST_SLEEPS` of them a pass tries whoever is late.
//!
//! A thread that is woken and doesn't try might waste the wake-up that another needs. It doesn't. A giver
//! that sees no ticket, once the lock is free, wakes one sleeper. If a late pass then keeps that one off, it
//! drew its ticket after the giver looked, and looks at the lock itself before it sleeps. A giver that sees
//! a ticket wakes all, the pass with the next one among them. Those that it keeps off sleep until one more is
//! served, and only if the count of these is still the one by which they were kept off.
//!
//! `lock` goes through the acts of `Waits` alone, in an order that the machine of `dc_sleepers` allows.

ghost use Rattle.std.specs.Prelude.{◌≡◌, if◌then◌else◌};
ghost use Rattle.dc_sleepers.specs.declared.lock.Place.TheVariants.{Trying, Counted, Awake, Got, Holding};

use crate::acts::Turn;
use crate::acts::waits::Waits;
use crate::shared::Shared;
use crate::{
    FEW_LOOKS, FEWEST_PAUSES, FREE, LOCK, MOST_DOUBLINGS, MOST_LOOKS, MOST_SLEEPS, PATIENCE,
    SHORT_PAUSES,
};
use dc_sleepers::lock::Thread;
use std::hint;
use std::sync::Wait;
use std::sync::atomic::AtomicU64;
use std::sync::atomic::Ordering::{Relaxed, SeqCst};

/// The tickets of the passes that are late.
#[derive(Drop)]
pub(crate) struct Late {
    /// How many were drawn so far.
    pub(crate) drawn: AtomicU64,
    /// How many of these got the lock.
    pub(crate) served: AtomicU64,
}

/// Lets the time of this many pauses of the processor go by.
fn pause(times: u64) {
    for _ in 0..times {
        hint::spin_loop();
    }
}

impl Late {
    pub(crate) fn new() -> Late {
        Late {
            drawn: AtomicU64::new(0),
            served: AtomicU64::new(0),
        }
    }

    /// Whether a late pass goes before this one, which has slept so often. A pass without a ticket goes
    /// after all that have one.
    fn keeps_off(&self, one: &Thread, sleeps: u64) -> bool {
        let ticket = if one.has_ticket {
            one.ticket
        } else {
            self.drawn.load(SeqCst)
        };
        self.served.load(SeqCst) < ticket && sleeps < MOST_SLEEPS
    }
}

impl Shared {
    /// Whether a pass may try the lock. If nobody waits, one load tells.
    pub(crate) fn may_try<W: Waits>(&self, turn: &Turn) -> bool {
        self.waiting.load(Relaxed) == 0 || !self.late.keeps_off(&W::stands(turn), W::sleeps(turn))
    }

    /// Waits for a while, or until the lock is seen free.
    pub(crate) fn wait<W: Waits, R: Wait>(&self, rt: &R, turn: &mut Turn)
        requires { (W.thread turn.old).place ≡ Trying }
        ensures { (W.thread turn.new).place ≡ Trying }
    {
        // It looks half as often after each sleep.
        let looks = MOST_LOOKS >> W::sleeps(turn).min(MOST_LOOKS);
        if self.may_try::<W>(turn) && self.comes_free(looks) {
            return;
        }
        self.grow_late::<W>(turn);
        // A giver that sees no sleeper, once the lock is free, wakes nobody. It sees each that counted itself
        // before; one that does so later finds the lock free, and doesn't sleep.
        W::count_in(self, turn);
        self.sleeps.fetch_add(1, Relaxed);
        self.sleep::<W, R>(rt, turn);
        W::count_out(self, turn);
    }

    /// Watches the lock for a few microseconds at most, until it is seen free. What it sees decides nothing:
    /// the try that comes next does.
    // A try takes the word's cache line from the holder, also if it finds the lock taken, and the holder is
    // about to free the lock there. Most holds end within this time, so that few tries are made in vain.
    pub(crate) fn watch_briefly(&self) {
        for _ in 0..FEW_LOOKS {
            if self.table.shared.peek(LOCK) == FREE {
                return;
            }
            pause(SHORT_PAUSES);
        }
    }

    /// Watches the lock for a while, and answers whether it was seen free. A holder needs it for far less
    /// time than a thread takes to fall asleep and to be woken.
    fn comes_free(&self, looks: u64) -> bool {
        for look in 0..looks {
            if self.table.shared.peek(LOCK) == FREE {
                return true;
            }
            // A look takes the word's cache line from the holder, who has to wait for it at its next step
            // there. So the pauses double, and the holder has the line to itself most of the time.
            pause(FEWEST_PAUSES << look.min(MOST_DOUBLINGS));
        }
        false
    }

    /// Draws a ticket if the pass has slept often enough. It counts as waiting until it has the lock, so that
    /// others look for it.
    fn grow_late<W: Waits>(&self, turn: &mut Turn)
        requires { (W.thread turn.old).place ≡ Trying }
        ensures { (W.thread turn.new).place ≡ Trying }
    {
        let one = W::stands(turn);
        if W::sleeps(turn) >= PATIENCE && one.has_slept && !one.has_ticket {
            W::count_late(self, turn);
            W::draw(self, turn);
        }
    }

    /// Sleeps while the lock is held, or until the next late pass has it.
    fn sleep<W: Waits, R: Wait>(&self, rt: &R, turn: &mut Turn)
        requires { (W.thread turn.old).place ≡ Counted }
        ensures { (W.thread turn.new).place ≡ Awake }
    {
        let limit = W::read_drawn(self, turn);
        if W::sleeps(turn) >= MOST_SLEEPS && W::stands(turn).has_slept {
            W::insist(turn);
            W::park(self, rt, turn);
        } else if W::read_served(self, turn) < limit {
            W::yield_turn(self, rt, turn);
        } else {
            W::park(self, rt, turn);
        }
    }

    /// The pass has got the lock. If it was late, the next one's turn comes.
    pub(crate) fn leave<W: Waits>(&self, turn: &mut Turn)
        requires { let x = W.thread turn.old in x.place ≡ (if x.has_ticket then Got else Holding) }
        ensures { (W.thread turn.new).place ≡ Holding }
    {
        if W::stands(turn).has_ticket {
            W::count_late_out(self, turn);
            W::serve(self, turn);
            W::wake_kept(self, turn);
        }
    }
}
