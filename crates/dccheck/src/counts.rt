//! What of a record was judged.

use dc_check::Stamp;
use dc_lang::{Line, SESSION_COUNT};
use dc_plain::Reply;
use std::fmt;

/// How many there were of each.
#[derive(Clone, Copy)]
pub struct Counts {
    pub commands: u64,
    pub replies: u64,
    /// Sessions that have a command.
    pub sessions: u64,
    /// One more than there are `sync` lines.
    pub phases: u64,
    /// Replies that say that a change was made.
    pub changes: u64,
}

/// Whether a reply says that a change was made.
pub fn is_done(reply: &Reply) -> bool {
    matches!(reply, Reply::Done(_) | Reply::Unit)
}

/// How many sessions the stamps have.
fn sessions_of(stamps: &[Stamp]) -> u64 {
    let mut met = [false; SESSION_COUNT];
    for stamp in stamps {
        if let Some(session) = met.get_mut(stamp.session as usize) {
            *session = true;
        }
    }
    met.iter().filter(|session| **session).count() as u64
}

impl Counts {
    /// Of the lines of the commands, and of all stamps.
    pub fn of(lines: &[Line], stamps: &[Stamp]) -> Counts {
        let syncs = lines
            .iter()
            .filter(|line| matches!(line, Line::Sync))
            .count();
        let changes = stamps.iter().filter(|stamp| is_done(&stamp.reply)).count();
        Counts {
            commands: lines.len().saturating_sub(syncs) as u64,
            replies: stamps.len() as u64,
            sessions: sessions_of(stamps),
            phases: syncs.saturating_add(1) as u64,
            changes: changes as u64,
        }
    }
}

impl fmt::Display for Counts {
    fn fmt<W: fmt::Write>(&self, f: &mut fmt::Formatter<W>) -> fmt::Result {
        write!(f, "commands {}, replies {}, ", self.commands, self.replies)?;
        write!(f, "sessions {}, phases {}, ", self.sessions, self.phases)?;
        write!(f, "changes {}", self.changes)
    }
}
