//! The server: it answers the lines of an input on one cache, phase by phase, with a thread for each
//! session.
#![tactic(auto)]

mod bytes;
mod calls;
mod command_line;
mod convert;
mod fault;
mod gate;
mod laws;
mod phase;
mod running;
mod serve;
mod session;
mod sizes;
mod stats;
mod status;

pub use command_line::options;
pub use dc_names::MOST_INPUT;
pub use fault::{OptionsFault, ServeFault};
pub use gate::{FreeGate, Gate, Looked};
pub use laws::{one_session_is_answered_plainly, replies_are_those_of_a_run};
pub use running::{run, understand};
pub use sizes::Options;
pub use stats::Stats;
