//! A whole input: its lines, the phases between those that say `sync`, the order in which its commands
//! are served, and where a session starts.

ghost use Rattle.std.specs.Prelude.{◌≡◌, ◌<◌, [], ◌∷◌, IfOk, OnOk, IfErr, map, length};
ghost use Rattle.dc_plain.specs.Requests.{answer_of};
ghost use Rattle.dc_lang.specs.Bases.{base_after};
ghost use Rattle.dc_lang.specs.Commands.{Means, meaning_of, said_by};
ghost use Rattle.dc_lang.specs.Inputs.{AllSay, IsLineFault, IsLinesFault};
ghost use Rattle.dc_lang.specs.Lines.{lines_of, line_length};
ghost use Rattle.dc_lang.specs.Phases.{all_ordered, by_session, is_sync, ordered, ordered_by, phases, served_from};
ghost use Rattle.dc_lang.specs.Served.{AddsServed, all_served};

use crate::{Command, InputFault, Line, LineFault, SESSIONS, Verb, read_line};
use dc_names::NoMemory;
use dc_plain::Reply;
use std::alloc::{AllocError, Global};

/// How many bytes stand before the first newline.
pub(crate) fn line_len(bytes: &[u8]) -> usize
    ensures { result ≡ line_length bytes.now }
{
    let mut len = 0;
    'bytes: while len < bytes.len() && bytes[len] != b'\n' {
        len += 1;
    }
    len
}

/// The first line of some bytes, and what comes after its newline.
fn first_line(bytes: &[u8]) -> (&[u8], &[u8])
    requires { 0 < length bytes.now }
    ensures lines { lines_of bytes.now ≡ result.0.now ∷ lines_of result.1.now }
    ensures shorter { length result.1.now < length bytes.now }
{
    let (line, rest) = bytes.split_at(line_len(bytes));
    if rest.is_empty() {
        (line, rest)
    } else {
        (line, &rest[1..])
    }
}

/// The lines of a text, each without its newline.
fn lines_in(alloc: Global, text: &[u8]) -> Result<Vec<&[u8]>, AllocError>
    ensures { IfOk result (λ lines. map (λ line. line.now) lines.items ≡ lines_of text.now) }
{
    let mut lines = Vec::new(alloc);
    let mut rest = text;
    'lines: while !rest.is_empty() {
        let (line, after) = first_line(rest);
        lines.push(line)?;
        rest = after;
    }
    Ok(lines)
}

/// What the line of a number says.
fn read_numbered(alloc: Global, number: u64, line: &[u8]) -> Result<Line, InputFault>
    ensures ok { IfOk result (λ said. Means line.now (meaning_of said)) }
    ensures err { IfErr result (IsLineFault Means number line.now) }
{
    match read_line(alloc, line) {
        Ok(said) => Ok(said),
        Err(LineFault::Bad) => Err(InputFault::BadLine(number)),
        Err(LineFault::NoMemory) => Err(InputFault::NoMemory),
    }
}

/// What lines say.
fn said_by_all(alloc: Global, lines: &[&[u8]]) -> Result<Vec<Line>, InputFault>
    ensures ok { IfOk result (λ said.
        AllSay (map (λ line. line.now) lines.now) (said_by said.items)) }
    ensures err { IfErr result (IsLinesFault Means (map (λ line. line.now) lines.now)) }
{
    let mut said = Vec::new(alloc);
    for (at, line) in lines.iter().enumerate() {
        said.push(read_numbered(alloc, at as u64 + 1, line)?)?;
    }
    Ok(said)
}

/// What the lines of an input say, of which the last may lack its newline.
pub fn read_lines(alloc: Global, input: &[u8]) -> Result<Vec<Line>, InputFault>
    ensures ok { IfOk result (λ said. AllSay (lines_of input.now) (said_by said.items)) }
    // `BadLine` of the first line that says nothing.
    ensures err { IfErr result (IsLinesFault Means (lines_of input.now)) }
{
    let lines = lines_in(alloc, input)?;
    said_by_all(alloc, &lines)
}

fn is_sync(line: &Line) -> bool
    ensures { result ≡ is_sync (meaning_of line.now) }
{
    matches!(line, Line::Sync)
}

/// The lines between those that say `sync`.
pub fn phases(alloc: Global, lines: &[Line]) -> Result<Vec<&[Line]>, AllocError>
    ensures { IfOk result (λ parts.
        all_ordered parts.items ≡ phases (said_by lines.now)) }
{
    lines.split(|line| is_sync(line)).collect(alloc)
}

/// A command as it is served.
#[derive(Clone, Copy)]
pub struct Served<'a> {
    /// Its phase, counted from 0.
    pub phase: u64,
    /// What it is.
    pub command: &'a Command,
}

/// Adds the command of a line, if it is one of the session.
fn add_line<'a>(
    out: &mut Vec<Served<'a>>,
    phase: u64,
    session: u64,
    line: &'a Line,
) -> Result<(), AllocError>
    ensures { OnOk result (AddsServed phase (ordered_by session (line.now ∷ []))
        out.old.items out.new.items) }
{
    match line {
        Line::Command(command) if command.session == session => {
            out.push(Served { phase, command })?;
            Ok(())
        }
        _ => Ok(()),
    }
}

/// Adds the commands of one session in a phase.
fn add_session<'a>(
    out: &mut Vec<Served<'a>>,
    phase: u64,
    session: u64,
    lines: &'a [Line],
) -> Result<(), AllocError>
    ensures { OnOk result (AddsServed phase (ordered_by session lines.now)
        out.old.items out.new.items) }
{
    for line in lines {
        add_line(out, phase, session, line)?;
    }
    Ok(())
}

/// Adds the commands of a phase, session by session.
fn add_phase<'a>(out: &mut Vec<Served<'a>>, phase: u64, lines: &'a [Line]) -> Result<(), AllocError>
    ensures { OnOk result (AddsServed phase (by_session (ordered lines.now))
        out.old.items out.new.items) }
{
    for session in 0..SESSIONS {
        add_session(out, phase, session, lines)?;
    }
    Ok(())
}

/// The commands that lines have, in the order in which they are served and answered: by phase, session
/// and line.
pub fn serving_order(alloc: Global, lines: &[Line]) -> Result<Vec<Served<'_>>, NoMemory>
    ensures { IfOk result (λ served.
        all_served served.items ≡ served_from 0 (phases (said_by lines.now))) }
{
    let parts = phases(alloc, lines)?;
    let mut served = Vec::new(alloc);
    for (phase, part) in parts.iter().enumerate() {
        add_phase(&mut served, phase as u64, part)?;
    }
    Ok(served)
}

/// Where a session starts once a command is answered: a `cd` that finds a directory moves it there.
pub fn base_after(command: &Command, reply: &Reply, base: u64) -> u64
    ensures { result ≡ base_after command.now.verb (answer_of reply.now) base }
{
    match (command.verb, reply) {
        (Verb::Cd, Reply::Found(number, _)) => *number,
        _ => base,
    }
}
