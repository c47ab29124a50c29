//! How the line of a reply is read.

ghost use Rattle.std.specs.Prelude.{◌≡◌, IfOk, IsErrOf, map, option_map};
ghost use Rattle.dc_plain.specs.Requests.{answer_of};
ghost use Rattle.dc_lang.specs.Reading.{Reads};
ghost use Rattle.dc_lang.specs.Responses.{Response, Tells, stamped_of, response_of};
ghost use Rattle.dc_lang.specs.ReadingReplies.{begins_plainly, number_in, kind_in, found_in, done_in, refused_in, counted_in, text_in, numbers_in, answer_in, point_in, stamped_from, stamped_in, response_from, without_newline, response_in};

use crate::LineFault;
use crate::read::{parts, session_in, word_in, words_in};
use crate::write::kind_text;
use dc_names::Kind;
use dc_plain::{Reply, Stamped};
use std::alloc::Global;
use std::str;

const KINDS: [Kind; 3] = [Kind::Dir, Kind::File, Kind::Link];

/// Whether a text has neither a sign nor a needless zero in front.
fn begins_plainly(text: &[u8]) -> bool
    ensures { result ≡ begins_plainly text.now }
{
    match text {
        [] => false,
        [only] => *only != b'+',
        [first, ..] => *first != b'+' && *first != b'0',
    }
}

/// A number of 64 bits. `parse` alone would take a sign and zeros in front.
fn number_in(text: &[u8]) -> Option<u64>
    ensures { result ≡ number_in text.now }
{
    if !begins_plainly(text) {
        return None;
    }
    str::from_utf8(text).ok()?.parse::<u64>().ok()
}

/// The kind that a text names.
#[tactic(auto, unfolding(crate::specs::ReadingReplies::kind_in))]
fn kind_in(text: &[u8]) -> Option<Kind>
    ensures { result ≡ kind_in text.now }
{
    KINDS
        .iter()
        .copied()
        .find(|kind| kind_text(*kind).as_bytes() == text)
}

fn found_in(words: &[&[u8]]) -> Option<Reply>
    ensures { option_map answer_of result ≡ found_in (map (λ word. word.now) words.now) }
{
    let [number, kind] = words else {
        return None;
    };
    Some(Reply::Found(number_in(number)?, kind_in(kind)?))
}

fn done_in(words: &[&[u8]]) -> Option<Reply>
    ensures { option_map answer_of result ≡ done_in (map (λ word. word.now) words.now) }
{
    match words {
        [] => Some(Reply::Unit),
        [number] => Some(Reply::Done(number_in(number)?)),
        _ => None,
    }
}

fn refused_in(words: &[&[u8]]) -> Option<Reply>
    ensures { option_map answer_of result ≡ refused_in (map (λ word. word.now) words.now) }
{
    let [number] = words else {
        return None;
    };
    Some(Reply::Refused(number_in(number)?))
}

fn counted_in(words: &[&[u8]]) -> Option<Reply>
    ensures { option_map answer_of result ≡ counted_in (map (λ word. word.now) words.now) }
{
    let [number, kind, count] = words else {
        return None;
    };
    let (number, kind) = (number_in(number)?, kind_in(kind)?);
    Some(Reply::Stat(number, kind, number_in(count)?))
}

/// An answer of numbers alone, by its first word.
fn numbers_in(first: &[u8], words: &[&[u8]]) -> Option<Reply>
    ensures { option_map answer_of result
        ≡ numbers_in first.now (map (λ word. word.now) words.now) }
{
    if first == b"is".as_slice() {
        found_in(words)
    } else if first == b"ok".as_slice() {
        done_in(words)
    } else if first == b"no".as_slice() {
        refused_in(words)
    } else if first == b"stat".as_slice() {
        counted_in(words)
    } else {
        None
    }
}

fn text_in(alloc: Global, words: &[&[u8]]) -> Result<Reply, LineFault>
    ensures { Reads answer_of result (text_in (map (λ word. word.now) words.now)) }
{
    let [text] = words else {
        return Err(LineFault::Bad);
    };
    Ok(Reply::Text(word_in(alloc, text)?))
}

/// The answer between the session and the point.
fn answer_in(alloc: Global, words: &[&[u8]]) -> Result<Reply, LineFault>
    ensures { Reads answer_of result (answer_in (map (λ word. word.now) words.now)) }
{
    let [first, words @ ..] = words else {
        return Err(LineFault::Bad);
    };
    if *first == b"text".as_slice() {
        return text_in(alloc, words);
    }
    if *first == b"names".as_slice() {
        return Ok(Reply::Names(words_in(alloc, words)?));
    }
    numbers_in(first, words).ok_or(LineFault::Bad)
}

/// A number behind an at sign.
fn point_in(word: &[u8]) -> Option<u64>
    ensures { result ≡ point_in word.now }
{
    match word {
        [b'@', digits @ ..] => number_in(digits),
        _ => None,
    }
}

fn stamped_from(alloc: Global, words: &[&[u8]], point: &[u8]) -> Result<Stamped, LineFault>
    ensures { Reads stamped_of result
        (stamped_from (map (λ word. word.now) words.now) point.now) }
{
    let Some(at) = point_in(point) else {
        return Err(LineFault::Bad);
    };
    let reply = answer_in(alloc, words)?;
    Ok(Stamped { reply, at })
}

/// An answer and its point, which is the last word.
fn stamped_in(alloc: Global, words: &[&[u8]]) -> Result<Stamped, LineFault>
    ensures { Reads stamped_of result (stamped_in (map (λ word. word.now) words.now)) }
{
    match words.split_last() {
        Some((point, words)) => stamped_from(alloc, words, point),
        None => Err(LineFault::Bad),
    }
}

fn response_from(alloc: Global, parts: &[&[u8]]) -> Result<(u64, Stamped), LineFault>
    ensures { Reads response_of result (response_from (map (λ part. part.now) parts.now)) }
{
    let [session, words @ ..] = parts else {
        return Err(LineFault::Bad);
    };
    let Some(session) = session_in(session) else {
        return Err(LineFault::Bad);
    };
    Ok((session, stamped_in(alloc, words)?))
}

/// A line, if a newline ends the text.
fn without_newline(text: &[u8]) -> Option<&[u8]>
    ensures { option_map (λ line. line.now) result ≡ without_newline text.now }
{
    let (last, line) = text.split_last()?;
    if *last == b'\n' { Some(line) } else { None }
}

fn response_in(alloc: Global, line: &[u8]) -> Result<(u64, Stamped), LineFault>
    ensures { Reads response_of result (response_in line.now) }
{
    let Some(line) = without_newline(line) else {
        return Err(LineFault::Bad);
    };
    let parts = parts(alloc, line)?;
    response_from(alloc, &parts)
}

/// Reads the line of a reply, which comes with its newline: a session from 0 to 15, an answer and a
/// point. `Bad` comes only if it is no such line. `NoMemory` is for memory that was refused; no clause
/// says when it comes. A reply that no tree gives is read like any other.
pub fn read_reply(alloc: Global, line: &[u8]) -> Result<(u64, Stamped), LineFault>
    // What is read is what the line tells.
    ensures ok { IfOk result (λ read. Tells line.now (response_of read)) }
    ensures bad { IsErrOf result LineFault.Bad
        → (response : Response) → Tells line.now response → ⊥ }
{
    response_in(alloc, line)
}
