//! A server's input and output as stamps.

ghost use Rattle.std.specs.Prelude.{◌≡◌, IfOk, IfErr, map};
ghost use Rattle.dc_lang.specs.Inputs.{AllTell};
ghost use Rattle.dc_lang.specs.Lines.{whole_lines};
ghost use Rattle.dc_lang.specs.Responses.{response_of};
ghost use Rattle.dc_check.specs.Records.{AreSessions, AreStampsOf, IsOutputFault, IsPairFault, IsRecord, IsRecordFault, IsStampOf, from_input, served_orders};
ghost use Rattle.dc_check.specs.Stamps.{stamps_of};
ghost use Rattle.dc_check.specs.declared.record.RecordFault.TheVariants.{NoMemory as NoMemoryFault};

use crate::Stamp;
use dc_lang::{
    Command, InputFault, SESSION_COUNT, Served, base_after, call, read_lines, read_replies,
    serving_order,
};
use dc_names::NoMemory;
use dc_plain::{OwnCall, Stamped};
use std::alloc::{AllocError, AllocFailed, Global};
use std::collections::VecDeque;
use std::error::Error;
use std::fmt;

/// Why an input and an output are no record.
#[derive(Clone, Copy, Debug, PartialEq, Eq)]
pub enum RecordFault {
    /// This line is none of the grammar. Lines are counted from 1 through the input and then on through
    /// the output.
    BadLine(u64),
    /// The output doesn't have, by phase, session and line, one reply of its session for each command, and
    /// nothing else.
    Unpaired,
    /// Memory was refused.
    NoMemory,
}

impl fmt::Display for RecordFault {
    fn fmt<W: fmt::Write>(&self, f: &mut fmt::Formatter<W>) -> fmt::Result {
        match self {
            RecordFault::BadLine(line) => write!(f, "bad line {line}"),
            RecordFault::Unpaired => f.write_str("unpaired"),
            RecordFault::NoMemory => f.write_str("no memory"),
        }
    }
}

impl Error for RecordFault {}

impl From<NoMemory> for RecordFault {
    ghost from_gives = { λ _ fault. fault ≡ NoMemoryFault };

    fn from(_fault: NoMemory) -> RecordFault {
        RecordFault::NoMemory
    }
}

impl From<AllocError> for RecordFault {
    ghost from_gives = { λ _ fault. fault ≡ NoMemoryFault };

    fn from(_fault: AllocError) -> RecordFault {
        RecordFault::NoMemory
    }
}

impl<T: Drop> From<AllocFailed<T>> for RecordFault {
    ghost from_gives = { λ _ fault. fault ≡ NoMemoryFault };

    fn from(_fault: AllocFailed<T>) -> RecordFault {
        RecordFault::NoMemory
    }
}

impl From<InputFault> for RecordFault {
    ghost from_gives = { λ error fault. fault ≡ from_input error };

    fn from(error: InputFault) -> RecordFault {
        match error {
            InputFault::BadLine(line) => RecordFault::BadLine(line),
            InputFault::NoMemory => RecordFault::NoMemory,
        }
    }
}

/// The replies of an output, whose lines are counted on from this many.
fn read_output(
    alloc: Global,
    before: u64,
    output: &[u8],
) -> Result<Vec<(u64, Stamped)>, RecordFault>
    ensures ok { IfOk result (λ told. AllTell (whole_lines output.now) (map response_of told.items)) }
    ensures err { IfErr result (IsOutputFault before (whole_lines output.now)) }
{
    match read_replies(alloc, output) {
        Ok(replies) => Ok(replies),
        // Both texts lie in memory, which has no room for 2^64 lines.
        Err(InputFault::BadLine(line)) => match before.checked_add(line) {
            Some(number) => Err(RecordFault::BadLine(number)),
            None => Err(RecordFault::NoMemory),
        },
        Err(InputFault::NoMemory) => Err(RecordFault::NoMemory),
    }
}

/// The stamp of a command whose session starts at `base`.
fn stamp(alloc: Global, command: &Command, base: u64, stamped: Stamped) -> Result<Stamp, NoMemory>
    ensures { IfOk result (IsStampOf base command.now stamped) }
{
    let own = OwnCall::of(alloc, &call(command, base))?;
    let Stamped { reply, at } = stamped;
    Ok(Stamp {
        session: command.session,
        call: own,
        reply,
        at,
    })
}

/// The stamps of commands with their replies. Each session starts at the root, and then where its last
/// `cd` led.
fn stamps_in(
    alloc: Global,
    served: &[Served],
    replies: Vec<(u64, Stamped)>,
) -> Result<Vec<Stamp>, RecordFault>
    requires { AreSessions (map response_of replies.items) }
    ensures ok { IfOk result (λ stamps. AreStampsOf served.now replies.items stamps.items) }
    ensures err { IfErr result (IsPairFault (served_orders served.now)
        (map response_of replies.items)) }
{
    let mut bases = [1u64; SESSION_COUNT];
    let mut left = VecDeque::from_vec(replies);
    let mut stamps = Vec::new(alloc);
    for one in served {
        let Some((session, stamped)) = left.pop_front() else {
            return Err(RecordFault::Unpaired);
        };
        if one.command.session != session {
            return Err(RecordFault::Unpaired);
        }
        let base = bases[session as usize];
        bases[session as usize] = base_after(one.command, &stamped.reply, base);
        stamps.push(stamp(alloc, one.command, base, stamped)?)?;
    }
    if left.is_empty() {
        Ok(stamps)
    } else {
        Err(RecordFault::Unpaired)
    }
}

/// The stamps of a server's input and output: each command with its reply, in the order of the output.
/// The input is read first. Each session starts at the root, and then where its last `cd` led.
pub fn record_of(alloc: Global, input: &[u8], output: &[u8]) -> Result<Vec<Stamp>, RecordFault>
    // Exactly the stamps of the commands with their replies.
    ensures ok { IfOk result (λ stamps. IsRecord input.now output.now (stamps_of stamps.items)) }
    // What each fault says of the texts: each comes only if none of the others is due.
    ensures err { IfErr result (IsRecordFault input.now output.now) }
{
    let lines = read_lines(alloc, input)?;
    let replies = read_output(alloc, lines.len() as u64, output)?;
    let served = serving_order(alloc, &lines)?;
    stamps_in(alloc, &served, replies)
}
