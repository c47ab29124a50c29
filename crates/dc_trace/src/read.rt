//! How a trace is read: a line a call, as `17 42 0 look /a = no 2`.

use crate::{Timed, TraceFault};
use dc_lang::{Command, Line, LineFault, SESSION_COUNT, read_line, read_reply};
use dc_names::NoMemory;
use dc_plain::Reply;
use std::alloc::Global;
use std::str;

/// What stands between a command and its reply.
const SIGN: &[u8] = b" = ";

/// The most words of a command: its session, `rename2`, its flags and two paths.
const MOST_WORDS: usize = 5;

/// A number without a sign or a needless zero in front.
fn number_in(text: &[u8]) -> Option<u64> {
    let [first, rest @ ..] = text else {
        return None;
    };
    if *first == b'+' || (*first == b'0' && !rest.is_empty()) {
        return None;
    }
    str::from_utf8(text).ok()?.parse::<u64>().ok()
}

/// A number, and what stands behind the space after it.
fn number_before(text: &[u8]) -> Option<(u64, &[u8])> {
    let space = text.iter().position(|byte| *byte == b' ')?;
    let number = number_in(text.get(..space)?)?;
    Some((number, text.get(space.saturating_add(1)..)?))
}

/// A reply, without its session and a point.
fn reply_in(alloc: Global, text: &[u8]) -> Result<Reply, LineFault> {
    let mut line = Vec::from_slice(alloc, b"0 ")?;
    line.extend_from_slice(text)?;
    line.extend_from_slice(b" @0\n")?;
    let (_, stamped) = read_reply(alloc, &line)?;
    Ok(stamped.reply)
}

/// The command before a sign at this place, and what stands behind the sign. `None` if there is no
/// sign, or no command before it.
fn command_before<'a>(
    alloc: Global,
    text: &'a [u8],
    place: usize,
) -> Result<Option<(Command, &'a [u8])>, LineFault> {
    let (Some(front), Some(rest)) = (text.get(..place), text.get(place..)) else {
        return Ok(None);
    };
    let Some(behind) = rest.strip_prefix(SIGN) else {
        return Ok(None);
    };
    match read_line(alloc, front) {
        Ok(Line::Command(command)) => Ok(Some((command, behind))),
        Err(LineFault::NoMemory) => Err(LineFault::NoMemory),
        Ok(Line::Sync) | Err(LineFault::Bad) => Ok(None),
    }
}

/// A command and its reply. A word may be `=` too, but a command has only one number of words.
// A line may have a sign at every fourth byte, and each is tried by reading all that stands before it. So
// only signs that stand behind as many words as a command may have are tried.
fn answered_in(alloc: Global, text: &[u8]) -> Result<(Command, Reply), LineFault> {
    let spaces = text.iter().enumerate().filter(|(_, byte)| **byte == b' ');
    for (place, _) in spaces.take(MOST_WORDS) {
        if let Some((command, behind)) = command_before(alloc, text, place)? {
            let reply = reply_in(alloc, behind)?;
            return Ok((command, reply));
        }
    }
    Err(LineFault::Bad)
}

/// The call of a line.
fn timed_in(alloc: Global, number: u64, text: &[u8]) -> Result<Timed, LineFault> {
    let Some((start, text)) = number_before(text) else {
        return Err(LineFault::Bad);
    };
    let Some((end, text)) = number_before(text) else {
        return Err(LineFault::Bad);
    };
    let (command, reply) = answered_in(alloc, text)?;
    Ok(Timed {
        line: number,
        start,
        end,
        command,
        reply,
    })
}

/// Sees that the calls of a session come one after the other.
fn follow(lane: &[Timed]) -> Result<(), TraceFault> {
    let mut free = 0;
    for timed in lane {
        if timed.start < free || timed.end < timed.start {
            return Err(TraceFault::BadLine(timed.line));
        }
        free = timed.end;
    }
    Ok(())
}

/// Adds the call of a line to its session's.
fn read_call(
    alloc: Global,
    number: u64,
    line: &[u8],
    lanes: &mut [Vec<Timed>],
) -> Result<(), TraceFault> {
    let text = line.strip_suffix(b"\n").unwrap_or(line);
    let timed = timed_in(alloc, number, text).map_err(|fault| TraceFault::of(fault, number))?;
    if let Some(lane) = lanes.get_mut(timed.command.session as usize) {
        lane.push(timed)?;
    }
    Ok(())
}

/// Adds the calls of a text's lines, in the order of the lines.
fn read_calls(alloc: Global, text: &[u8], lanes: &mut [Vec<Timed>]) -> Result<(), TraceFault> {
    let lines = text.split_inclusive(|byte| *byte == b'\n');
    for (at, line) in lines.enumerate() {
        read_call(alloc, (at as u64).saturating_add(1), line, lanes)?;
    }
    Ok(())
}

/// Brings the calls of each session into the order of their times.
fn settle(lanes: &mut [Vec<Timed>]) -> Result<(), TraceFault> {
    for lane in lanes.iter_mut() {
        lane.sort_by_key(|timed| timed.start)?;
        follow(lane)?;
    }
    Ok(())
}

/// No calls, of each session.
fn no_calls(alloc: Global) -> Result<Vec<Vec<Timed>>, NoMemory> {
    let mut lanes = Vec::new(alloc);
    for _ in 0..SESSION_COUNT {
        lanes.push(Vec::new(alloc))?;
    }
    Ok(lanes)
}

/// The calls of each session by their times, from the lines of a text, of which the last may lack its
/// newline. The lines stand in any order.
pub fn read_trace(alloc: Global, text: &[u8]) -> Result<Vec<Vec<Timed>>, TraceFault> {
    let mut lanes = no_calls(alloc)?;
    read_calls(alloc, text, &mut lanes)?;
    settle(&mut lanes)?;
    Ok(lanes)
}
