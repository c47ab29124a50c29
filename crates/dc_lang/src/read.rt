//! How the line of a command is read.

ghost use Rattle.std.specs.Prelude.{◌≡◌, ◌<◌, Some, None, IfOk, IfSome, IfNone, IsErrOf, map, length};
ghost use Rattle.dc_lang.specs.Commands.{Meaning, Means, meaning_of, order_of};
ghost use Rattle.dc_lang.specs.Reading.{Reads, escaped, with_first, bytes_in, word_in, words_in, session_in, order_in, parts, meaning_in};
ghost use Rattle.dc_lang.specs.Words.{bytes_of};

use crate::verb::{flags_stand, verb_in};
use crate::{Command, Line, LineFault};
use std::alloc::{AllocError, Global};

/// What a letter behind a backslash stands for.
fn escaped(letter: u8) -> Option<u8>
    ensures { result ≡ escaped letter }
{
    match letter {
        b's' => Some(b' '),
        b'n' => Some(b'\n'),
        b'\\' => Some(b'\\'),
        _ => None,
    }
}

/// The first byte that a text stands for, and the text behind its spelling.
fn first_byte(text: &[u8]) -> Option<(u8, &[u8])>
    requires { 0 < length text.now }
    ensures some { IfSome result (λ first.
        bytes_in text.now ≡ with_first (Some first.0) (bytes_in first.1.now)) }
    ensures shorter { IfSome result (λ first. length first.1.now < length text.now) }
    ensures none { IfNone result (bytes_in text.now ≡ None) }
{
    match text {
        [b'\\', letter, rest @ ..] => Some((escaped(*letter)?, rest)),
        [b'\\' | b' ' | b'\n', ..] | [] => None,
        [byte, rest @ ..] => Some((*byte, rest)),
    }
}

/// The bytes of a word that isn't empty.
fn bytes_in(alloc: Global, text: &[u8]) -> Result<Vec<u8>, LineFault>
    ensures { Reads (λ bytes. bytes.items) result (bytes_in text.now) }
{
    let mut bytes = Vec::new(alloc);
    let mut rest = text;
    'bytes: while !rest.is_empty() {
        let Some((byte, behind)) = first_byte(rest) else {
            return Err(LineFault::Bad);
        };
        bytes.push(byte)?;
        rest = behind;
    }
    Ok(bytes)
}

pub(crate) fn word_in(alloc: Global, text: &[u8]) -> Result<Vec<u8>, LineFault>
    ensures { Reads (λ bytes. bytes.items) result (word_in text.now) }
{
    if text.is_empty() {
        return Err(LineFault::Bad);
    }
    if text == b"\\e".as_slice() {
        return Ok(Vec::new(alloc));
    }
    bytes_in(alloc, text)
}

pub(crate) fn words_in(alloc: Global, texts: &[&[u8]]) -> Result<Vec<Vec<u8>>, LineFault>
    ensures { Reads (λ words. bytes_of words.items) result
        (words_in (map (λ text. text.now) texts.now)) }
{
    let mut words = Vec::new(alloc);
    for text in texts {
        words.push(word_in(alloc, text)?)?;
    }
    Ok(words)
}

/// The session of a number from 0 to 15, with no zero in front.
pub(crate) fn session_in(text: &[u8]) -> Option<u64>
    ensures { result ≡ session_in text.now }
{
    match text {
        [one @ b'0'..=b'9'] => Some(u64::from(*one - b'0')),
        [b'1', one @ b'0'..=b'5'] => Some(10 + u64::from(*one - b'0')),
        _ => None,
    }
}

fn command_in(alloc: Global, parts: &[&[u8]]) -> Result<Command, LineFault>
    ensures { Reads order_of result (order_in (map (λ part. part.now) parts.now)) }
{
    let [session, verb, words @ ..] = parts else {
        return Err(LineFault::Bad);
    };
    let (Some(session), Some(verb)) = (session_in(session), verb_in(verb)) else {
        return Err(LineFault::Bad);
    };
    if words.len() != verb.word_count() {
        return Err(LineFault::Bad);
    }
    let words = words_in(alloc, words)?;
    if !flags_stand(verb, &words) {
        return Err(LineFault::Bad);
    }
    Ok(Command {
        session,
        verb,
        words,
    })
}

/// The parts of a line between its spaces.
pub(crate) fn parts(alloc: Global, line: &[u8]) -> Result<Vec<&[u8]>, AllocError>
    ensures { IfOk result (λ found. map (λ part. part.now) found.items ≡ parts line.now) }
{
    line.split(|b| *b == b' ').collect(alloc)
}

#[tactic(auto, unfolding(crate::specs::Reading::meaning_in))]
fn read(alloc: Global, line: &[u8]) -> Result<Line, LineFault>
    ensures { Reads meaning_of result (meaning_in line.now) }
{
    if line == b"sync".as_slice() {
        return Ok(Line::Sync);
    }
    let parts = parts(alloc, line)?;
    Ok(Line::Command(command_in(alloc, &parts)?))
}

/// Reads a line, which comes without its newline: `sync`, or a session from 0 to 15, a verb and its
/// words. `Bad` comes only if it is no such line. `NoMemory` is for memory that was refused; no clause
/// says when it comes.
pub fn read_line(alloc: Global, line: &[u8]) -> Result<Line, LineFault>
    // What is read is what the line means.
    ensures ok { IfOk result (λ meaning. Means line.now (meaning_of meaning)) }
    ensures bad { IsErrOf result LineFault.Bad → (meaning : Meaning) → Means line.now meaning → ⊥ }
    // What is read, as the definition computes it.
    ensures exact { Reads meaning_of result (meaning_in line.now) }
{
    read(alloc, line)
}
