//! Records that are read and judged. The verdicts on records of lines alone are in examples/records.

mod large;
mod slow;

use crate::runs::{INODES, phased_verdict};
use dc_check::{PhasedVerdict, Stamp, Verdict, check, record_of};
use dc_names::Kind;
use dc_plain::{Call, Follow, Reply};
use dc_trace::TraceFault;
use std::test::Fail;

/// A session in a directory that another session removes.
const INPUT: &str = "0 mkdir /a\n0 cd /a\nsync\n1 rmdir /a\nsync\n0 look .\n";

const OUTPUT: &str = "0 ok 2 @0\n0 is 2 dir @1\n1 ok @1\n0 no 2 @2\n";

/// The sessions, calls and points of its stamps.
static STAMPS: [(u64, Call<'static>, u64); 4] = [
    (
        0,
        Call::Mkdir {
            base: 1,
            path: b"/a",
        },
        0,
    ),
    (
        0,
        Call::Look {
            base: 1,
            path: b"/a",
            follow: Follow::Dir,
        },
        1,
    ),
    (
        1,
        Call::Rmdir {
            base: 1,
            path: b"/a",
        },
        1,
    ),
    (
        0,
        Call::Look {
            base: 2,
            path: b".",
            follow: Follow::Yes,
        },
        2,
    ),
];

/// Whether a reply is the one of this place.
fn is_reply_at(reply: &Reply, place: usize) -> bool {
    matches!(
        (place, reply),
        (0, Reply::Done(2))
            | (1, Reply::Found(2, Kind::Dir))
            | (2, Reply::Unit)
            | (3, Reply::Refused(2))
    )
}

/// Whether a stamp is the one of this place.
fn is_at(stamp: &Stamp, place: usize) -> bool {
    match STAMPS.get(place) {
        Some((session, call, at)) => {
            stamp.session == *session
                && stamp.call.as_call() == *call
                && is_reply_at(&stamp.reply, place)
                && stamp.at == *at
        }
        None => false,
    }
}

/// Whether stamps are those of the input and its output.
fn are_stamps(stamps: &[Stamp]) -> bool {
    for (place, stamp) in stamps.iter().enumerate() {
        if !is_at(stamp, place) {
            return false;
        }
    }
    stamps.len() == STAMPS.len()
}

#[test]
fn pairs_an_input_with_its_output(rt: HostRuntime) -> Result<(), Fail> {
    let stamps = record_of(rt.alloc(), INPUT.as_bytes(), OUTPUT.as_bytes())?;
    assert!(rt; are_stamps(&stamps), "{stamps:?}");
    assert_eq!(rt; check(rt.alloc(), INODES, &stamps)?, Verdict::Legal);
    Ok(())
}

/// A stale absence behind a barrier is legal for a checker that knows no phases.
#[test]
fn phases_are_judged_beside(rt: HostRuntime) -> Result<(), Fail> {
    let alloc = rt.alloc();
    let input = b"0 mkdir /a\nsync\n1 look /a\n";
    let stamps = record_of(alloc, input, b"0 ok 2 @0\n1 no 2 @0\n")?;
    assert_eq!(rt; check(alloc, INODES, &stamps)?, Verdict::Legal);
    let phased = phased_verdict(alloc, INODES, input, &stamps)?;
    assert_eq!(rt; phased, PhasedVerdict::BadPhase(2));
    Ok(())
}

#[test]
fn faults_of_traces_have_texts(rt: HostRuntime) -> Result<(), Fail> {
    let told = TraceFault::BadLine(7).to_string(rt.alloc())?;
    assert_eq!(rt; told.as_str(), "bad line 7");
    Ok(())
}
