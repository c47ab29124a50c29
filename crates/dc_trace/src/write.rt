//! The record that a trace makes with the order that was found.

use crate::{Errors, Rules, Timed};
use dc_check::QuickTree;
use dc_lang::{Command, base_after, call, write_command, write_reply};
use dc_names::NoMemory;
use dc_plain::{ROOT, Reply, Stamped};
use std::alloc::Global;
use std::vec::IntoIter;

/// A plain tree on which the calls of sessions are made in an order.
#[derive(Drop)]
struct Replay {
    tree: QuickTree,
    /// Whether refusals are those of the plain tree.
    is_exact: bool,
    /// How many calls altered it.
    clock: u64,
    /// The calls of each session that aren't made yet.
    lanes: Vec<IntoIter<Timed, Global>>,
    /// Where each session stands.
    stands: Vec<u64>,
    /// The lines of the replies of each session.
    replies: Vec<Vec<u8>>,
}

/// The reply that a trace tells, with the tree's own numbers: of inodes, and unless they are exact of
/// refusals.
fn numbered(told: Reply, due: &Reply, is_exact: bool) -> Reply {
    match (told, due) {
        (Reply::Found(_, kind), Reply::Found(number, _)) => Reply::Found(*number, kind),
        (Reply::Stat(_, kind, count), Reply::Stat(number, ..)) => {
            Reply::Stat(*number, kind, count)
        }
        (Reply::Done(_) | Reply::Unit, Reply::Done(number)) => Reply::Done(*number),
        (Reply::Refused(_), Reply::Refused(number)) if !is_exact => Reply::Refused(*number),
        (told, _) => told,
    }
}

impl Replay {
    /// Before any call.
    fn new(alloc: Global, rules: Rules, lanes: Vec<Vec<Timed>>) -> Result<Replay, NoMemory> {
        let mut replay = Replay {
            tree: QuickTree::new(alloc, rules.inodes)?,
            is_exact: rules.errors == Errors::Exact,
            clock: 0,
            lanes: Vec::new(alloc),
            stands: Vec::new(alloc),
            replies: Vec::new(alloc),
        };
        for lane in lanes {
            replay.add_session(alloc, lane)?;
        }
        Ok(replay)
    }

    /// Adds a session with its calls.
    fn add_session(&mut self, alloc: Global, lane: Vec<Timed>) -> Result<(), NoMemory> {
        self.lanes.push(lane.into_iter())?;
        self.stands.push(ROOT.0)?;
        self.replies.push(Vec::new(alloc))?;
        Ok(())
    }

    /// What the tree gives a call, and the point of it.
    fn answer(&mut self, alloc: Global, command: &Command, base: u64) -> Result<Stamped, NoMemory> {
        let (call, at) = (call(command, base), self.clock);
        if let Some(reply) = self.tree.answer(alloc, &call)? {
            return Ok(Stamped { reply, at });
        }
        self.clock = at.saturating_add(1);
        let reply = self.tree.apply(alloc, &call)?;
        Ok(Stamped { reply, at })
    }

    /// Makes a call of a session.
    fn make(&mut self, alloc: Global, session: usize, timed: Timed) -> Result<(), NoMemory> {
        let base = self.stands.get(session).copied().unwrap_or(ROOT.0);
        let Timed { command, reply, .. } = timed;
        let Stamped { reply: due, at } = self.answer(alloc, &command, base)?;
        let reply = numbered(reply, &due, self.is_exact);
        if let Some(stands) = self.stands.get_mut(session) {
            *stands = base_after(&command, &reply, base);
        }
        let line = write_reply(alloc, session as u64, &Stamped { reply, at })?;
        if let Some(lines) = self.replies.get_mut(session) {
            lines.extend_from_slice(&line)?;
        }
        Ok(())
    }

    /// The replies of the sessions' calls, made in this order.
    fn replies(&mut self, alloc: Global, order: &[usize]) -> Result<Vec<u8>, NoMemory> {
        for session in order {
            if let Some(timed) = self.lanes.get_mut(*session).and_then(|lane| lane.next()) {
                self.make(alloc, *session, timed)?;
            }
        }
        let mut replies = Vec::new(alloc);
        for lines in &self.replies {
            replies.extend_from_slice(lines)?;
        }
        Ok(replies)
    }
}

/// The lines of the commands of sessions.
fn commands_of(alloc: Global, lanes: &[Vec<Timed>]) -> Result<Vec<u8>, NoMemory> {
    let mut commands = Vec::new(alloc);
    for lane in lanes {
        for timed in lane {
            commands.extend_from_slice(&write_command(alloc, &timed.command)?)?;
            commands.extend_from_slice(b"\n")?;
        }
    }
    Ok(commands)
}

/// The commands of sessions by session, and the replies to them, each with its point in this order of the
/// sessions' calls, as the checker reads both. The replies have the numbers that a plain tree gives.
pub fn write_record(
    alloc: Global,
    rules: Rules,
    lanes: Vec<Vec<Timed>>,
    order: &[usize],
) -> Result<(Vec<u8>, Vec<u8>), NoMemory> {
    let commands = commands_of(alloc, &lanes)?;
    let mut replay = Replay::new(alloc, rules, lanes)?;
    let replies = replay.replies(alloc, order)?;
    Ok((commands, replies))
}
