//! The checker: it says whether the stamped replies of many sessions are what one plain tree answers.
//!
//! A *stamp* is a session's call with its reply and its point: how many changes came before it took effect.
//! `record_of` makes the stamps of a server's input and output: each command as a call from where its
//! session stands then, with its reply, in the order of the output. It answers `BadLine` if a line isn't
//! in the grammar, and `Unpaired` if the replies aren't those of the commands, one for each.
//!
//! `check` says `Legal` exactly of stamps that one tree gives in some order that keeps each session's, and
//! `check_phases` exactly of those that keep the phases too: the n-th of `phases` is the phase of the n-th
//! stamp, and no call takes effect before one of an earlier phase. Any other verdict names a line:
//! `BadReply` if the tree at its point gives another reply, which `reply_due` tells, `BadOrder` if its call
//! can't stand at its point, `BadPhase` if it comes before one of an earlier phase. It is proved that there
//! is such a verdict exactly if the stamps aren't legal, but neither its kind nor its line.
//!
//! Lines are counted from 1. In a verdict the n-th stamp is line n; in a `BadLine` the lines of the output
//! go on behind those of the input.
//!
//! All of these take memory: a judge makes the changes on a tree of its own (`QuickTree`), and sorts a list
//! with a place for each stamp. `NoMemory` says that it was refused, and nothing of the stamps.
#![tactic(auto)]

mod checking;
mod due;
mod fault;
mod judge;
mod order;
mod phases;
mod record;
mod stamp;
mod tree;

pub use checking::{check, check_phases};
pub use due::reply_due;
pub use record::{RecordFault, record_of};
pub use stamp::{PhasedVerdict, Stamp, Verdict};
pub use tree::QuickTree;
