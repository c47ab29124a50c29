//! The verdict on calls with their times.

ghost use Rattle.std.specs.Prelude.{◌≤◌};
ghost use Rattle.dc_names.specs.declared.limits.TheConstants.{MOST_INODES};

use crate::faults::{Fault, File};
use crate::record::Record;
use crate::report::{Report, json_line, list_of, push_all, push_shown, put_numbers, put_texts};
use dc_trace::{
    Outcome, Rules, Timed, TraceFault, begun_before, find_order, read_trace, stretch_of,
    write_record,
};
use serde_json::{Map, put};
use std::alloc::{AllocError, Global};

/// What a trace comes to.
#[derive(Drop)]
pub enum Found {
    /// A legal record that keeps the times: its commands, its replies, and the verdict on them.
    Legal(Vec<u8>, Vec<u8>, Report),
    /// No order explains the trace, and none comes further than to the call of this line. The lines of a
    /// stretch of the trace, which has that call and isn't explained either.
    Bad(u64, Vec<u8>),
    /// The search stopped at the call of this line. This many calls are decided.
    Undecided(u64, u64),
}

/// The verdict on the record of an order.
fn judged(alloc: Global, inodes: u64, commands: Vec<u8>, replies: Vec<u8>) -> Result<Found, Fault>
    requires least { 1 ≤ inodes }
    requires most { inodes ≤ MOST_INODES }
{
    let report = Record::read(alloc, &commands, &replies)?.judge(alloc, inodes)?;
    if report.is_legal() {
        Ok(Found::Legal(commands, replies, report))
    } else {
        Ok(Found::Undecided(0, 0))
    }
}

/// The calls of a trace.
fn read(alloc: Global, trace: &[u8]) -> Result<Vec<Vec<Timed>>, Fault> {
    read_trace(alloc, trace).map_err(|fault| match fault {
        TraceFault::BadLine(line) => Fault::BadLine(File::Trace, line),
        TraceFault::NoMemory => Fault::NoMemory,
    })
}

/// The line of a text with this number, counted from 1.
fn line_of(text: &[u8], line: u64) -> &[u8] {
    let place = (line as usize).saturating_sub(1);
    text.split(|byte| *byte == b'\n').nth(place).unwrap_or(b"")
}

/// The lines of a text that have these numbers, which rise.
fn lines_of(alloc: Global, text: &[u8], numbers: &[u64]) -> Result<Vec<u8>, AllocError> {
    let (mut lines, mut left) = (Vec::new(alloc), numbers.iter().copied().peekable());
    for (at, line) in text.split_inclusive(|byte| *byte == b'\n').enumerate() {
        if left.peek() == Some(&(at as u64).saturating_add(1)) {
            left.next();
            push_all(
                &mut lines,
                &[line.strip_suffix(b"\n").unwrap_or(line), b"\n"],
            )?;
        }
    }
    Ok(lines)
}

/// Whether some order of a trace's calls explains them, if that is found out.
fn is_explained(alloc: Global, rules: Rules, trace: &[u8]) -> Result<Option<bool>, Fault> {
    let lanes = read(alloc, trace)?;
    match find_order(alloc, rules, &lanes)? {
        Outcome::Order(_) => Ok(Some(true)),
        Outcome::Stuck(..) => Ok(Some(false)),
        Outcome::Undecided(..) => Ok(None),
    }
}

/// A stretch of a trace that isn't explained with the call of a line and is without it: the calls beside it
/// and those that they rest on. Or else all that began before it had ended.
fn stretch(
    alloc: Global,
    rules: Rules,
    trace: &[u8],
    lanes: &[Vec<Timed>],
    line: u64,
    order: &[usize],
) -> Result<Vec<u8>, Fault> {
    let mut lines = stretch_of(alloc, rules, lanes, line, order)?;
    let short = lines_of(alloc, trace, &lines)?;
    lines.retain(|one| *one != line);
    let rest = lines_of(alloc, trace, &lines)?;
    if is_explained(alloc, rules, &short)? == Some(false)
        && is_explained(alloc, rules, &rest)? == Some(true)
    {
        return Ok(short);
    }
    Ok(lines_of(alloc, trace, &begun_before(alloc, lanes, line)?)?)
}

/// Looks for an order of a trace, and judges its record.
pub fn explain(alloc: Global, rules: Rules, trace: &[u8]) -> Result<Found, Fault>
    requires least { 1 ≤ rules.inodes }
    requires most { rules.inodes ≤ MOST_INODES }
{
    let lanes = read(alloc, trace)?;
    match find_order(alloc, rules, &lanes)? {
        Outcome::Order(order) => {
            let (commands, replies) = write_record(alloc, rules, lanes, &order)?;
            judged(alloc, rules.inodes, commands, replies)
        }
        Outcome::Stuck(line, order) => {
            let stretch = stretch(alloc, rules, trace, &lanes, line, &order)?;
            Ok(Found::Bad(line, stretch))
        }
        Outcome::Undecided(line, many) => Ok(Found::Undecided(line, many)),
    }
}

/// The verdict that a trace is bad.
fn bad_text(alloc: Global, trace: &[u8], line: u64, stretch: &[u8]) -> Result<Vec<u8>, AllocError> {
    let mut text = format!(in alloc; "bad call {line}: ")?.into_bytes();
    push_shown(alloc, &mut text, line_of(trace, line))?;
    text.extend_from_slice(b"\n\n")?;
    push_shown(alloc, &mut text, stretch)?;
    Ok(text)
}

impl Found {
    /// The status that the program ends with.
    pub fn status(&self) -> u8 {
        match self {
            Found::Legal(..) => 0,
            Found::Bad(..) => 1,
            Found::Undecided(..) => 6,
        }
    }

    /// What is said of a trace, in lines. If it is legal the record stands behind the verdict, as the
    /// checker reads it.
    pub fn text(&self, alloc: Global, trace: &[u8]) -> Result<Vec<u8>, AllocError> {
        match self {
            Found::Legal(commands, replies, report) => {
                let mut text = report.text(alloc)?;
                push_all(&mut text, &[b"\n", commands, b"\n", replies])?;
                Ok(text)
            }
            Found::Bad(line, stretch) => bad_text(alloc, trace, *line, stretch),
            Found::Undecided(line, many) => {
                let text = format!(in alloc; "undecided at call {line}, {many} decided\n")?;
                Ok(text.into_bytes())
            }
        }
    }

    /// What is said of a trace, as a line of JSON.
    pub fn json(&self, alloc: Global, trace: &[u8]) -> Result<Vec<u8>, AllocError> {
        let mut members = Map::new(alloc);
        match self {
            Found::Legal(commands, replies, report) => {
                members = report.members(alloc)?;
                put(&mut members, alloc, "asked", list_of(alloc, commands)?)?;
                put(&mut members, alloc, "answered", list_of(alloc, replies)?)?;
            }
            Found::Bad(line, stretch) => {
                let texts: [(&str, &[u8]); 2] = [
                    ("verdict", b"bad call"),
                    ("call", line_of(trace, *line)),
                ];
                put_texts(alloc, &mut members, &texts)?;
                put_numbers(alloc, &mut members, &[("line", *line)])?;
                put(&mut members, alloc, "stretch", list_of(alloc, stretch)?)?;
            }
            Found::Undecided(line, many) => {
                put_texts(alloc, &mut members, &[("verdict", b"undecided".as_slice())])?;
                put_numbers(alloc, &mut members, &[("line", *line), ("decided", *many)])?;
            }
        }
        json_line(alloc, members)
    }
}
