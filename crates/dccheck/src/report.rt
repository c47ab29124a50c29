//! What the program says of a record, as text and as JSON.

use crate::counts::Counts;
use serde_json::{Map, Value, put};
use std::alloc::{AllocError, Global};

/// A line of the replies, and its command.
#[derive(Drop)]
pub struct Answered {
    /// Counted from 1.
    pub line: u64,
    pub reply: Vec<u8>,
    pub command: Vec<u8>,
}

/// What is wrong in a record.
#[derive(Drop)]
pub struct Wrong {
    pub line: Answered,
    /// The line of the reply that the tree gives in its place.
    pub due: Option<Vec<u8>>,
    /// The changes nearest to it.
    pub near: Vec<Answered>,
}

/// The verdict on a record.
#[derive(Drop)]
pub struct Report {
    /// `legal`, or what is bad.
    pub word: &'static str,
    pub wrong: Option<Wrong>,
    pub counts: Counts,
}

/// Adds some parts to a text.
pub fn push_all(out: &mut Vec<u8>, parts: &[&[u8]]) -> Result<(), AllocError> {
    for part in parts {
        out.extend_from_slice(part)?;
    }
    Ok(())
}

/// Whether a byte behind another is a control character of a terminal, in UTF-8 too. A newline isn't: it
/// ends a line.
fn is_control(last: u8, byte: u8) -> bool {
    (byte < b' ' && byte != b'\n') || byte == 0x7f || (last == 0xc2 && (0x80..0xa0).contains(&byte))
}

/// Adds a line of a file. A name may have any bytes, and a terminal obeys some: they are shown as `\x1b`,
/// which no word of a line has.
pub fn push_shown(alloc: Global, out: &mut Vec<u8>, line: &[u8]) -> Result<(), AllocError> {
    let mut last = 0;
    for byte in line {
        if is_control(last, *byte) {
            out.extend_from_slice(format!(in alloc; "\\x{byte:02x}")?.as_bytes())?;
        } else {
            out.push(*byte)?;
        }
        last = *byte;
    }
    Ok(())
}

/// Adds a reply and its command.
fn push_answered(alloc: Global, out: &mut Vec<u8>, one: &Answered) -> Result<(), AllocError> {
    push_shown(alloc, out, &one.reply)?;
    out.extend_from_slice(b", for \"")?;
    push_shown(alloc, out, &one.command)?;
    out.extend_from_slice(b"\"\n")
}

/// Adds one of the changes nearest to a line.
fn push_near(alloc: Global, out: &mut Vec<u8>, one: &Answered) -> Result<(), AllocError> {
    let head = format!(in alloc; "near {}: ", one.line)?;
    out.extend_from_slice(head.as_bytes())?;
    push_answered(alloc, out, one)
}

/// Adds a line that is bad, the reply that is due, and the changes nearest to it.
fn push_wrong(alloc: Global, out: &mut Vec<u8>, wrong: &Wrong) -> Result<(), AllocError> {
    push_answered(alloc, out, &wrong.line)?;
    if let Some(due) = &wrong.due {
        out.extend_from_slice(b"due: ")?;
        push_shown(alloc, out, due)?;
    }
    for one in &wrong.near {
        push_near(alloc, out, one)?;
    }
    Ok(())
}

/// The text of the verdict that a line is bad.
fn wrong_text(alloc: Global, word: &str, wrong: &Wrong) -> Result<Vec<u8>, AllocError> {
    let mut out = format!(in alloc; "{word} {}: ", wrong.line.line)?.into_bytes();
    push_wrong(alloc, &mut out, wrong)?;
    Ok(out)
}

/// A line as a text, without its newline. Bytes that are no text are replaced.
fn text_of(alloc: Global, line: &[u8]) -> Result<String, AllocError> {
    String::from_utf8_lossy(alloc, line.strip_suffix(b"\n").unwrap_or(line))
}

/// Adds texts by their names.
pub fn put_texts(
    alloc: Global,
    members: &mut Map<String, Value>,
    texts: &[(&str, &[u8])],
) -> Result<(), AllocError> {
    for (name, text) in texts {
        let text = text_of(alloc, text)?;
        put(members, alloc, name, Value::String(text))?;
    }
    Ok(())
}

/// Adds numbers by their names.
pub fn put_numbers(
    alloc: Global,
    members: &mut Map<String, Value>,
    numbers: &[(&str, u64)],
) -> Result<(), AllocError> {
    for (name, number) in numbers {
        put(members, alloc, name, Value::from(*number))?;
    }
    Ok(())
}

/// The lines of a text, as a list.
pub fn list_of(alloc: Global, text: &[u8]) -> Result<Value, AllocError> {
    let mut list = Vec::new(alloc);
    for line in text.split_inclusive(|byte| *byte == b'\n') {
        list.push(Value::String(text_of(alloc, line)?))?;
    }
    Ok(Value::Array(list))
}

/// A line of JSON.
pub fn json_line(alloc: Global, members: Map<String, Value>) -> Result<Vec<u8>, AllocError> {
    let mut line = Value::Object(members).to_string(alloc)?.into_bytes();
    line.push(b'\n')?;
    Ok(line)
}

/// A line of the replies and its command.
fn answered_value(alloc: Global, one: &Answered) -> Result<Value, AllocError> {
    let mut members = Map::new(alloc);
    let texts: [(&str, &[u8]); 2] = [("reply", &one.reply), ("command", &one.command)];
    put_texts(alloc, &mut members, &texts)?;
    put_numbers(alloc, &mut members, &[("line", one.line)])?;
    Ok(Value::Object(members))
}

/// The line that is bad, the reply that is due and the changes nearest to it: empty if nothing is.
fn put_wrong(
    alloc: Global,
    members: &mut Map<String, Value>,
    wrong: &Option<Wrong>,
) -> Result<(), AllocError> {
    let (mut line, mut near) = (0, Vec::new(alloc));
    let mut texts: [(&str, &[u8]); 3] = [("reply", b""), ("command", b""), ("due", b"")];
    if let Some(wrong) = wrong {
        let Answered { reply, command, .. } = &wrong.line;
        let due = wrong.due.as_deref().unwrap_or(b"");
        texts = [("reply", reply), ("command", command), ("due", due)];
        line = wrong.line.line;
        for one in &wrong.near {
            near.push(answered_value(alloc, one)?)?;
        }
    }
    put_texts(alloc, members, &texts)?;
    put_numbers(alloc, members, &[("line", line)])?;
    put(members, alloc, "near", Value::Array(near))
}

impl Report {
    /// Of a record that is legal.
    pub fn legal(counts: Counts) -> Report {
        Report {
            word: "legal",
            wrong: None,
            counts,
        }
    }

    /// Whether the record is legal.
    pub fn is_legal(&self) -> bool {
        self.wrong.is_none()
    }

    /// The verdict in lines.
    pub fn text(&self, alloc: Global) -> Result<Vec<u8>, AllocError> {
        match &self.wrong {
            Some(wrong) => wrong_text(alloc, self.word, wrong),
            None => Vec::from_slice(alloc, b"legal\n"),
        }
    }

    /// All of it by names.
    pub fn members(&self, alloc: Global) -> Result<Map<String, Value>, AllocError> {
        let mut members = Map::new(alloc);
        let counts = &self.counts;
        let numbers = [
            ("commands", counts.commands),
            ("replies", counts.replies),
            ("sessions", counts.sessions),
            ("phases", counts.phases),
            ("changes", counts.changes),
        ];
        put_texts(alloc, &mut members, &[("verdict", self.word.as_bytes())])?;
        put_numbers(alloc, &mut members, &numbers)?;
        put_wrong(alloc, &mut members, &self.wrong)?;
        Ok(members)
    }
}
