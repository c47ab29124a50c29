//! Uses of the cache, one in each file. Each is proved from the contracts of `dc_cache` alone, and a
//! crate that does the same lists `dc_cache` and nothing else.
//!
//! - `look_and_change`: a thread makes a directory and looks it up.
//! - `threads`: two threads work on one cache, each with a pass of its own.
//! - `learn`: a look-up that comes after a change that another thread made.
//! - `fast`: a look-up without the lock, a second time if a change came between.
//! - `retry`: a change in a thread that may not wait.
#![tactic(auto)]

mod fast;
mod learn;
mod look_and_change;
mod retry;
mod threads;

pub use fast::look_twice;
pub use learn::look_after;
pub use look_and_change::make_and_look;
pub use retry::change_in_tries;
pub use threads::make_in_two_threads;
