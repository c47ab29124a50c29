//! A server's commands and replies, and the verdict on them.

ghost use Rattle.std.specs.Prelude.{◌≤◌};
ghost use Rattle.dc_names.specs.declared.limits.TheConstants.{MOST_INODES};

use crate::counts::Counts;
use crate::faults::{Fault, File};
use crate::near::nearest;
use crate::report::{Answered, Report, Wrong};
use dc_check::{PhasedVerdict, RecordFault, Stamp, check_phases, record_of, reply_due};
use dc_lang::{
    Line, LineFault, Served, read_lines, read_reply, serving_order, write_command, write_reply,
};
use dc_names::NoMemory;
use dc_plain::Stamped;
use std::alloc::{AllocError, Global};

/// The commands with their replies.
#[derive(Drop)]
pub struct Record<'a> {
    lines: Vec<Line>,
    stamps: Vec<Stamp>,
    phases: Vec<u64>,
    output: &'a [u8],
}

/// Whether a line is a reply of a command's session.
fn is_reply_to(alloc: Global, one: &Served, line: &[u8]) -> bool {
    match read_reply(alloc, line) {
        Ok((session, _)) => session == one.command.session,
        Err(LineFault::Bad | LineFault::NoMemory) => false,
    }
}

/// The first line of the replies that is no reply to its command: one of another session, one behind
/// the last command, or the line that is missing.
fn first_unpaired(alloc: Global, served: &[Served], output: &[u8]) -> u64 {
    let replies = output.split_inclusive(|byte| *byte == b'\n');
    let mut line = 1u64;
    for (one, reply) in served.iter().zip(replies) {
        if !is_reply_to(alloc, one, reply) {
            break;
        }
        line = line.saturating_add(1);
    }
    line
}

/// The fault of a record whose commands were read, with the file and the line.
fn record_fault(
    alloc: Global,
    lines: &[Line],
    served: &[Served],
    output: &[u8],
    fault: RecordFault,
) -> Fault {
    match fault {
        RecordFault::NoMemory => Fault::NoMemory,
        RecordFault::Unpaired => Fault::Unpaired(first_unpaired(alloc, served, output)),
        RecordFault::BadLine(line) => {
            let before = lines.len() as u64;
            Fault::BadLine(File::Replies, line.saturating_sub(before))
        }
    }
}

/// The numbers of the phases of commands.
fn phases_of(alloc: Global, served: &[Served]) -> Result<Vec<u64>, AllocError> {
    served.iter().map(|one| one.phase).collect(alloc)
}

/// The stamps of a record whose commands were read, and the numbers of their phases.
fn stamps_of(
    alloc: Global,
    input: &[u8],
    output: &[u8],
    lines: &[Line],
) -> Result<(Vec<Stamp>, Vec<u64>), Fault> {
    let served = serving_order(alloc, lines)?;
    match record_of(alloc, input, output) {
        Ok(stamps) => Ok((stamps, phases_of(alloc, &served)?)),
        Err(fault) => Err(record_fault(alloc, lines, &served, output, fault)),
    }
}

/// The command at a place, or no bytes.
fn command_at(alloc: Global, served: &[Served], place: usize) -> Result<Vec<u8>, NoMemory> {
    match served.get(place) {
        Some(one) => write_command(alloc, one.command),
        None => Ok(Vec::new(alloc)),
    }
}

impl<'a> Record<'a> {
    /// Reads the commands and the replies.
    pub fn read(alloc: Global, input: &[u8], output: &'a [u8]) -> Result<Record<'a>, Fault> {
        let lines = read_lines(alloc, input)?;
        let (stamps, phases) = stamps_of(alloc, input, output, &lines)?;
        Ok(Record {
            lines,
            stamps,
            phases,
            output,
        })
    }

    /// What it has.
    pub fn counts(&self) -> Counts {
        Counts::of(&self.lines, &self.stamps)
    }

    /// The reply at a place, with its command.
    fn answered(&self, alloc: Global, served: &[Served], place: usize) -> Result<Answered, Fault> {
        let reply = self.output.split(|byte| *byte == b'\n').nth(place);
        let command = command_at(alloc, served, place)?;
        Ok(Answered {
            line: (place as u64).saturating_add(1),
            reply: Vec::from_slice(alloc, reply.unwrap_or(b""))?,
            command,
        })
    }

    /// What the tree gives the call of a place at its point, if that is another reply.
    fn due(&self, alloc: Global, inodes: u64, place: usize) -> Result<Option<Vec<u8>>, Fault>
        requires least { 1 ≤ inodes }
        requires most { inodes ≤ MOST_INODES }
    {
        let Some(stamp) = self.stamps.get(place) else {
            return Ok(None);
        };
        match reply_due(alloc, inodes, &self.stamps, stamp)? {
            Some(reply) if reply != stamp.reply => {
                let stamped = Stamped {
                    reply,
                    at: stamp.at,
                };
                Ok(Some(write_reply(alloc, stamp.session, &stamped)?))
            }
            _ => Ok(None),
        }
    }

    /// The replies nearest to that at a place, with their commands.
    fn near(&self, alloc: Global, served: &[Served], place: usize) -> Result<Vec<Answered>, Fault> {
        let mut near = Vec::new(alloc);
        for other in &nearest(alloc, served, &self.stamps, place)? {
            near.push(self.answered(alloc, served, *other)?)?;
        }
        Ok(near)
    }

    /// What is wrong in a line of the replies.
    fn wrong(&self, alloc: Global, inodes: u64, line: u64) -> Result<Wrong, Fault>
        requires least { 1 ≤ inodes }
        requires most { inodes ≤ MOST_INODES }
    {
        let served = serving_order(alloc, &self.lines)?;
        let place = (line as usize).saturating_sub(1);
        let near = self.near(alloc, &served, place)?;
        Ok(Wrong {
            line: self.answered(alloc, &served, place)?,
            due: self.due(alloc, inodes, place)?,
            near,
        })
    }

    /// The verdict, if at most this many inodes may live.
    pub fn judge(&self, alloc: Global, inodes: u64) -> Result<Report, Fault>
        requires least { 1 ≤ inodes }
        requires most { inodes ≤ MOST_INODES }
    {
        // A record has a stamp for each command.
        if self.phases.len() != self.stamps.len() {
            return Err(Fault::Unpaired(1));
        }
        let (word, line) = match check_phases(alloc, inodes, &self.stamps, &self.phases)? {
            PhasedVerdict::BadReply(line) => ("bad reply", line),
            PhasedVerdict::BadOrder(line) => ("bad order", line),
            PhasedVerdict::BadPhase(line) => ("bad phase", line),
            PhasedVerdict::Legal => return Ok(Report::legal(self.counts())),
        };
        Ok(Report {
            word,
            wrong: Some(self.wrong(alloc, inodes, line)?),
            counts: self.counts(),
        })
    }
}
