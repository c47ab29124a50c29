//! Runs with little memory, gates, readers and writers, and the words of the command line. What a run writes for
//! its lines is in examples/rows and examples/runs.

mod gates;
mod streams;

use crate::runs::{USUAL, served};
use dc_serve::{Options, OptionsFault, ServeFault, options, understand};
use std::alloc::{AllocError, Global};
use std::test::Fail;

const PHASES: &[u8] = b"0 mkdir /a\nsync\n1 list /\n1 create /b\n";

const WHOLE: &[u8] = b"0 ok 2 @0\n1 names a @1\n1 ok 3 @1\n";

/// Whether these are the replies of whole phases.
fn are_whole(output: &[u8]) -> bool {
    let ends = [0, 10, WHOLE.len()];
    ends.iter().any(|end| WHOLE.get(..*end) == Some(output))
}

/// Whichever allocation is refused, only the replies of whole phases are written, and all of them if none
/// is.
#[test]
fn runs_of_little_memory(rt: HostRuntime) {
    let (result, output) = served(&rt, rt.alloc(), USUAL, PHASES);
    let right = match result {
        Ok(()) => output.as_slice() == WHOLE,
        Err(fault) => fault == ServeFault::NoMemory && are_whole(&output),
    };
    assert!(rt; right, "{result:?} {output:?}");
}

/// Words, and the buckets, inodes and statistics that they ask for, if they do.
static WORDS: [(&str, Option<(u64, u64, bool)>); 7] = [
    ("", Some((256, 65536, false))),
    ("--buckets 8", Some((8, 65536, false))),
    ("--inodes=7 --buckets=3", Some((3, 7, false))),
    ("--buckets +4", Some((4, 65536, false))),
    ("--stats --buckets 0016", Some((16, 65536, true))),
    ("--inodes 18446744073709551616", None),
    ("--inodes x", None),
];

/// Whether options are these, or a bad size if none are wanted.
fn are_options(found: Result<Options, OptionsFault>, want: Option<(u64, u64, bool)>) -> bool {
    match (found, want) {
        (Ok(found), Some((buckets, inodes, stats))) => {
            found
                == Options {
                    buckets,
                    inodes,
                    stats,
                }
        }
        (Err(OptionsFault::BadSize), None) => true,
        _ => false,
    }
}

#[test]
fn words_of_the_command_line(rt: HostRuntime) -> Result<(), Fail> {
    for (line, want) in WORDS.iter() {
        let found = options(rt.alloc(), &words_of(rt.alloc(), line)?);
        assert!(rt; are_options(found, *want), "{line}");
    }
    Ok(())
}

fn words_of(alloc: Global, line: &str) -> Result<Vec<String>, AllocError> {
    let mut words = Vec::new(alloc);
    for word in line.split(' ') {
        if !word.is_empty() {
            words.push(String::from_str(alloc, word)?)?;
        }
    }
    Ok(words)
}

/// Faults, their texts and their statuses.
static FAULTS: [(ServeFault, &str, u8); 7] = [
    (ServeFault::BadLine(1), "bad line 1", 1),
    (
        ServeFault::BadLine(u64::MAX),
        "bad line 18446744073709551615",
        1,
    ),
    (ServeFault::BadSize, "bad size", 2),
    (ServeFault::NoMemory, "no memory", 3),
    (ServeFault::Spent, "spent", 3),
    (ServeFault::Read, "read fault", 4),
    (ServeFault::Write, "write fault", 4),
];

#[test]
fn texts_and_statuses_of_faults(rt: HostRuntime) -> Result<(), Fail> {
    for (fault, text, status) in FAULTS.iter() {
        let told = format!(in rt.alloc(); "{fault}")?;
        assert_eq!(rt; told.as_str(), *text);
        assert_eq!(rt; fault.status(), *status, "{text}");
    }
    Ok(())
}

/// A bad line is reported by its number, before anything runs.
#[test]
fn lines_that_are_understood(rt: HostRuntime) {
    let mut rest = b"3 look /\nsync\n3 look /".as_slice();
    let lines = understand(rt.alloc(), &mut rest, USUAL);
    assert!(rt; lines.is_ok_and(|lines| lines.len() == 3));
    assert!(rt; rest.is_empty());
}
