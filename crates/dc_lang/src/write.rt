//! How lines of commands and of replies are written.

ghost use Rattle.std.specs.Prelude.{◌≡◌, ◌∷◌, ◌++◌, IfOk, OnOk, map};
ghost use Rattle.dc_plain.specs.Requests.{answer_of};
ghost use Rattle.dc_plain.specs.Requests.Answer.{Bytes, Names};
ghost use Rattle.dc_lang.specs.Words.{bytes_of, spelled, spelled_byte};
ghost use Rattle.dc_lang.specs.Commands.{order_of, line_text, meaning_of};
ghost use Rattle.dc_lang.specs.Commands.Meaning.{Orders};
ghost use Rattle.dc_lang.specs.Replies.{kind_text, reply_text};
ghost use Rattle.dc_lang.specs.Writing.{answer_text, behind_spaces};

use crate::{Command, Line};
use dc_names::{Kind, NoMemory};
use dc_plain::{Reply, Stamped};
use std::alloc::{AllocError, Global};

pub(crate) fn kind_text(kind: Kind) -> &'static str
    ensures { result.now ≡ kind_text kind }
{
    match kind {
        Kind::Dir => "dir",
        Kind::File => "file",
        Kind::Link => "link",
    }
}

fn push_byte(out: &mut Vec<u8>, byte: u8) -> Result<(), AllocError>
    ensures { OnOk result (out.new.items ≡ out.old.items ++ spelled_byte byte) }
{
    match byte {
        b' ' => out.extend_from_slice(b"\\s"),
        b'\n' => out.extend_from_slice(b"\\n"),
        b'\\' => out.extend_from_slice(b"\\\\"),
        _ => out.extend_from_slice(&[byte]),
    }
}

/// Adds a word behind a space.
fn push_word(out: &mut Vec<u8>, word: &[u8]) -> Result<(), AllocError>
    ensures { OnOk result (out.new.items ≡ out.old.items ++ 32 ∷ spelled word.now) }
{
    if word.is_empty() {
        return out.extend_from_slice(b" \\e");
    }
    out.extend_from_slice(b" ")?;
    for byte in word {
        push_byte(out, *byte)?;
    }
    Ok(())
}

/// Adds words, each behind a space.
fn push_words(out: &mut Vec<u8>, words: &[Vec<u8>]) -> Result<(), AllocError>
    ensures { OnOk result (out.new.items
        ≡ out.old.items ++ behind_spaces (map spelled (bytes_of words.now))) }
{
    for word in words {
        push_word(out, word)?;
    }
    Ok(())
}

fn push_names(out: &mut Vec<u8>, names: &[Vec<u8>]) -> Result<(), AllocError>
    ensures { OnOk result (out.new.items
        ≡ out.old.items ++ answer_text (Names (bytes_of names.now))) }
{
    out.extend_from_slice(b" names")?;
    push_words(out, names)
}

fn push_text(out: &mut Vec<u8>, text: &[u8]) -> Result<(), AllocError>
    ensures { OnOk result (out.new.items
        ≡ out.old.items ++ answer_text (Bytes text.now)) }
{
    out.extend_from_slice(b" text")?;
    push_word(out, text)
}

/// Adds the words of a reply, each behind a space.
fn push_answer(alloc: Global, out: &mut Vec<u8>, reply: &Reply) -> Result<(), AllocError>
    ensures { OnOk result (out.new.items
        ≡ out.old.items ++ answer_text (answer_of reply.now)) }
{
    let text = match reply {
        Reply::Text(text) => return push_text(out, text),
        Reply::Names(names) => return push_names(out, names),
        Reply::Found(number, kind) => format!(in alloc; " is {number} {}", kind_text(*kind)),
        Reply::Done(number) => format!(in alloc; " ok {number}"),
        Reply::Unit => format!(in alloc; " ok"),
        Reply::Stat(number, kind, count) => format!(in alloc;
            " stat {number} {} {count}",
            kind_text(*kind)
        ),
        Reply::Refused(number) => format!(in alloc; " no {number}"),
    };
    out.extend_from_slice(text?.as_bytes())
}

/// The line of a reply, with its newline.
pub fn write_reply(alloc: Global, session: u64, stamped: &Stamped) -> Result<Vec<u8>, NoMemory>
    ensures { IfOk result (λ text.
        text.items ≡ reply_text session (answer_of stamped.now.reply) stamped.now.at) }
{
    let mut out = format!(in alloc; "{session}")?.into_bytes();
    push_answer(alloc, &mut out, &stamped.reply)?;
    out.extend_from_slice(format!(in alloc; " @{}\n", stamped.at)?.as_bytes())?;
    Ok(out)
}

/// The line of a command, without its newline.
pub fn write_command(alloc: Global, command: &Command) -> Result<Vec<u8>, NoMemory>
    ensures { IfOk result (λ text. text.items ≡ line_text (Orders (order_of command.now))) }
{
    let mut out = format!(in alloc; "{} ", command.session)?.into_bytes();
    out.extend_from_slice(command.verb.text())?;
    push_words(&mut out, &command.words)?;
    Ok(out)
}

/// The line of a meaning, without its newline: what `read_line` reads as this line, if the session
/// is below `SESSIONS` and the words are as many as the verb takes.
pub fn write_line(alloc: Global, line: &Line) -> Result<Vec<u8>, NoMemory>
    ensures { IfOk result (λ text. text.items ≡ line_text (meaning_of line.now)) }
{
    Ok(match line {
        Line::Sync => Vec::from_slice(alloc, b"sync")?,
        Line::Command(command) => write_command(alloc, command)?,
    })
}
