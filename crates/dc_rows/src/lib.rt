//! Which row of the table is filled, shut, refilled, pinned and emptied, and how a change goes from its plan
//! to its answer.
//!
//! A `Guard` has the lock between two changes: all rows rest on the tree as it is. Within a change some are
//! odd, and then the holder of the lock, a `dc_table::Holder`, has them.
#![tactic(auto)]

mod calls;
mod changes;
mod evicting;
mod facts;
mod fault;
mod filling;
mod guard;
mod locking;
mod pins;
mod shutting;
mod writing;

pub use calls::{change, pin, shrink, unpin_all};
pub use fault::ChangeFault;
pub use guard::Guard;
