//! Both judges over one record of 10,000 replies to sixteen sessions, whose tree has thousands of files.

use crate::runs::phased_verdict;
use dc_check::{PhasedVerdict, Stamp, Verdict, check, record_of};
use dc_plain::Reply;
use std::alloc::Global;
use std::test::Fail;

const SESSIONS: u64 = 16;

const FILES: u64 = 4_000;

const CALLS: u64 = 10_000;

const LIVING: u64 = 8_192;

/// The line of an input, and its reply. The files are made in turn, and then looked up, by the sessions in
/// turn. After the last session's line a phase ends.
fn push_line(
    alloc: Global,
    input: &mut Vec<u8>,
    output: &mut Vec<u8>,
    number: u64,
) -> Result<(), Fail> {
    let (session, file) = (number % SESSIONS, number % FILES);
    let inode = file.saturating_add(2);
    let (line, reply) = if number < FILES {
        (
            format!(in alloc; "{session} create /{file}\n")?,
            format!(in alloc; "{session} ok {inode} @{number}\n")?,
        )
    } else {
        (
            format!(in alloc; "{session} look /{file}\n")?,
            format!(in alloc; "{session} is {inode} file @{FILES}\n")?,
        )
    };
    input.extend_from_slice(line.as_bytes())?;
    output.extend_from_slice(reply.as_bytes())?;
    if session == SESSIONS - 1 {
        input.extend_from_slice(b"sync\n")?;
    }
    Ok(())
}

/// The input, and its stamps.
fn record(alloc: Global) -> Result<(Vec<u8>, Vec<Stamp>), Fail> {
    let mut input = Vec::new(alloc);
    let mut output = Vec::new(alloc);
    for number in 0..CALLS {
        push_line(alloc, &mut input, &mut output, number)?;
    }
    let stamps = record_of(alloc, &input, &output)?;
    Ok((input, stamps))
}

/// The verdicts of both judges.
fn verdicts(
    alloc: Global,
    input: &[u8],
    stamps: &[Stamp],
) -> Result<(Verdict, PhasedVerdict), Fail> {
    let alone = check(alloc, LIVING, stamps)?;
    Ok((alone, phased_verdict(alloc, LIVING, input, stamps)?))
}

/// A reply, and then a point, is another one in the middle.
#[test]
fn both_judge_many_sessions_over_a_large_tree(rt: HostRuntime) -> Result<(), Fail> {
    let alloc = rt.alloc();
    let (input, mut stamps) = record(alloc)?;
    assert!(rt; verdicts(alloc, &input, &stamps)? == (Verdict::Legal, PhasedVerdict::Legal));
    if let Some(stamp) = stamps.get_mut(6_999) {
        stamp.reply = Reply::Refused(2);
    }
    let bad = (Verdict::BadReply(7_000), PhasedVerdict::BadReply(7_000));
    assert!(rt; verdicts(alloc, &input, &stamps)? == bad);
    if let Some(stamp) = stamps.get_mut(6_999) {
        stamp.at = FILES - 1;
    }
    let bad = (Verdict::BadOrder(7_000), PhasedVerdict::BadOrder(7_000));
    assert!(rt; verdicts(alloc, &input, &stamps)? == bad);
    Ok(())
}
