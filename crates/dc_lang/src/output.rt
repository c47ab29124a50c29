//! A whole output: its lines, and what they tell.

ghost use Rattle.std.specs.Prelude.{◌≡◌, ◌<◌, ◌∷◌, IfOk, IfErr, map, length};
ghost use Rattle.dc_lang.specs.Inputs.{AllTell, IsLineFault, IsLinesFault};
ghost use Rattle.dc_lang.specs.Lines.{whole_lines};
ghost use Rattle.dc_lang.specs.Responses.{Tells, response_of};

use crate::input::line_len;
use crate::{InputFault, LineFault, read_reply};
use dc_plain::Stamped;
use std::alloc::{AllocError, Global};

/// The first line of some bytes, with its newline if it has one, and what comes after it.
fn first_whole_line(bytes: &[u8]) -> (&[u8], &[u8])
    requires { 0 < length bytes.now }
    ensures lines { whole_lines bytes.now ≡ result.0.now ∷ whole_lines result.1.now }
    ensures shorter { length result.1.now < length bytes.now }
{
    let len = line_len(bytes);
    if len < bytes.len() {
        bytes.split_at(len + 1)
    } else {
        bytes.split_at(len)
    }
}

/// The lines of a text, each with its newline.
fn whole_lines_in(alloc: Global, text: &[u8]) -> Result<Vec<&[u8]>, AllocError>
    ensures { IfOk result (λ lines. map (λ line. line.now) lines.items ≡ whole_lines text.now) }
{
    let mut lines = Vec::new(alloc);
    let mut rest = text;
    'lines: while !rest.is_empty() {
        let (line, after) = first_whole_line(rest);
        lines.push(line)?;
        rest = after;
    }
    Ok(lines)
}

/// What the line of a number tells.
fn reply_numbered(alloc: Global, number: u64, line: &[u8]) -> Result<(u64, Stamped), InputFault>
    ensures ok { IfOk result (λ told. Tells line.now (response_of told)) }
    ensures err { IfErr result (IsLineFault Tells number line.now) }
{
    match read_reply(alloc, line) {
        Ok(told) => Ok(told),
        Err(LineFault::Bad) => Err(InputFault::BadLine(number)),
        Err(LineFault::NoMemory) => Err(InputFault::NoMemory),
    }
}

/// What lines tell.
fn told_by_all(alloc: Global, lines: &[&[u8]]) -> Result<Vec<(u64, Stamped)>, InputFault>
    ensures ok { IfOk result (λ told.
        AllTell (map (λ line. line.now) lines.now) (map response_of told.items)) }
    ensures err { IfErr result (IsLinesFault Tells (map (λ line. line.now) lines.now)) }
{
    let mut told = Vec::new(alloc);
    for (at, line) in lines.iter().enumerate() {
        told.push(reply_numbered(alloc, at as u64 + 1, line)?)?;
    }
    Ok(told)
}

/// What the lines of an output tell: for each the session, the reply and its point.
pub fn read_replies(alloc: Global, output: &[u8]) -> Result<Vec<(u64, Stamped)>, InputFault>
    ensures ok { IfOk result (λ told. AllTell (whole_lines output.now) (map response_of told.items)) }
    // `BadLine` of the first line that tells nothing.
    ensures err { IfErr result (IsLinesFault Tells (whole_lines output.now)) }
{
    let lines = whole_lines_in(alloc, output)?;
    told_by_all(alloc, &lines)
}
