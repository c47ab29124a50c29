//! Shakes caches: threads make calls of all kinds on one, and what they were answered is judged.
#![tactic(auto)]

mod draw;
mod gate;
mod replay;
mod round;
mod tally;
mod thread;
mod threads;
mod ways;

pub use draw::Draw;
pub use replay::agree;
pub use round::{BUCKETS, INODES, Played, Round, SORTS, Shaken, Wrong, judge};
pub use tally::{KINDS, NAMES, Tally, sum};
pub use threads::Answers;
