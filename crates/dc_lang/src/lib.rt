//! The lines of commands and of replies, and how a whole input falls into phases and sessions.
//!
//! A line is words with one space between them. In a word `\s` is a space, `\n` a newline, `\\` a
//! backslash, and `\e` alone the empty word; every other byte stands for itself.
#![tactic(auto)]

mod calls;
mod fault;
mod input;
mod laws;
mod line;
mod output;
mod read;
mod reply;
mod verb;
mod write;

pub use calls::call;
pub use dc_names::{SESSION_COUNT, SESSIONS};
pub use fault::InputFault;
pub use input::{Served, base_after, phases, read_lines, serving_order};
pub use laws::each_line_has_one_meaning;
pub use line::{Command, Line, LineFault, Verb};
pub use output::read_replies;
pub use read::read_line;
pub use reply::read_reply;
pub use write::{write_command, write_line, write_reply};
