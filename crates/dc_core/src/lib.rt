//! The event core: any number of actors step on shared words, one word at a time. Every list of
//! events leaves replies that one plain tree gives.
#![tactic(auto)]

mod actor;
mod allowed;
mod effects;
mod event;
mod facts;
mod laws;
mod machine;
mod making;
mod refused;
mod rows;
mod state;
mod steps;
mod truths;
mod walk;

pub use dc_names::MakeFault;
pub use event::{Act, Event};
pub use laws::events_are_steps_of_the_table;
pub use machine::Core;
pub use refused::Refused;
pub use state::Finished;
