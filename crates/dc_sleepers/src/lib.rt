//! Who sleeps until a lock is free, and who sees to it that the sleeper is woken: the lock of a table, and the
//! gate of `gigbewu.h`, each as a machine of any number of threads. After any list of events no sleeper is
//! forgotten.
#![tactic(auto)]

pub mod gate;
mod giving;
mod laws;
pub mod lock;
mod locking;
mod passing;
#[cfg(test)]
mod tests;

pub use laws::{
    a_step_of_the_lock_is_its_threads, no_sleeper_at_the_gate_is_forgotten,
    no_sleeper_of_the_lock_is_forgotten,
};
