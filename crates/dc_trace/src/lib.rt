//! Calls that were recorded with their times alone, and the search for an order that explains them.
#![tactic(auto)]

mod causes;
mod errors;
mod form;
mod names;
mod read;
mod search;
mod sets;
mod state;
mod timed;
mod tree;
mod write;

pub use causes::{begun_before, stretch_of};
pub use errors::Errors;
pub use read::read_trace;
pub use search::{Outcome, Rules, find_order};
pub use timed::{Timed, TraceFault};
pub use write::write_record;
