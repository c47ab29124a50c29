//! Lines, inputs and outputs, read and written. The call of a line, the order in which lines are served, where a
//! `cd` moves a session, and the line of each kind of reply are seen in what the server writes (examples/rows).

use dc_lang::{
    Command, InputFault, Line, LineFault, SESSIONS, Verb, each_line_has_one_meaning, read_line,
    read_lines, read_replies, read_reply, write_line, write_reply,
};
use dc_names::NoMemory;
use dc_plain::{Reply, Stamped};
use std::alloc::{AllocError, Global};
use std::test::Fail;

fn is_bad(alloc: Global, line: &[u8]) -> bool {
    matches!(read_line(alloc, line), Err(LineFault::Bad))
}

/// Whether words are these.
fn are(words: &[Vec<u8>], wanted: &[&[u8]]) -> bool {
    for (at, word) in words.iter().enumerate() {
        match wanted.get(at) {
            Some(want) if word.as_slice() == *want => {}
            _ => return false,
        }
    }
    words.len() == wanted.len()
}

fn is(command: &Command, session: u64, verb: Verb, words: &[&[u8]]) -> bool {
    command.session == session && command.verb == verb && are(&command.words, words)
}

/// Lines, and what they are read as.
static READ: [(&[u8], u64, Verb, &[&[u8]]); 18] = [
    (b"0 look /", 0, Verb::Look, &[b"/"]),
    (b"9 llook \\e", 9, Verb::Llook, &[b""]),
    (b"10 cd ..", 10, Verb::Cd, &[b".."]),
    (b"1 readlink l", 1, Verb::Readlink, &[b"l"]),
    (b"2 stat .", 2, Verb::Stat, &[b"."]),
    (b"3 list /d/", 3, Verb::List, &[b"/d/"]),
    (b"15 mkdir /@3", 15, Verb::Mkdir, &[b"/@3"]),
    (b"0 mkdir a\\sb\\nc\\\\e", 0, Verb::Mkdir, &[b"a b\nc\\e"]),
    (b"4 create f", 4, Verb::Create, &[b"f"]),
    (b"5 link f g", 5, Verb::Link, &[b"f", b"g"]),
    (b"6 symlink ./d l", 6, Verb::Symlink, &[b"./d", b"l"]),
    (b"6 symlink \\e l", 6, Verb::Symlink, &[b"", b"l"]),
    (b"7 unlink g", 7, Verb::Unlink, &[b"g"]),
    (b"8 rmdir d", 8, Verb::Rmdir, &[b"d"]),
    (b"11 rename a\\sb b", 11, Verb::Rename, &[b"a b", b"b"]),
    (b"1 rename2 - a b", 1, Verb::Rename2, &[b"-", b"a", b"b"]),
    (b"1 rename2 nx \\e b", 1, Verb::Rename2, &[b"nx", b"", b"b"]),
    (b"0 look /\0\xff", 0, Verb::Look, &[b"/\0\xff"]),
];

/// Whether a line is read as this command.
fn is_read(
    alloc: Global,
    line: &[u8],
    session: u64,
    verb: Verb,
    words: &[&[u8]],
) -> Result<bool, LineFault> {
    match read_line(alloc, line)? {
        Line::Command(command) => Ok(is(&command, session, verb, words)),
        Line::Sync => Ok(false),
    }
}

fn is_sync(alloc: Global, line: &[u8]) -> Result<bool, LineFault> {
    let line = read_line(alloc, line)?;
    Ok(matches!(line, Line::Sync))
}

#[test]
fn reads_lines(rt: HostRuntime) -> Result<(), Fail> {
    for (line, session, verb, words) in READ.iter() {
        assert!(rt;
            is_read(rt.alloc(), line, *session, *verb, words)?,
            "{line:?}"
        );
    }
    Ok(())
}

#[test]
fn reads_the_line_between_phases(rt: HostRuntime) -> Result<(), Fail> {
    assert!(rt; is_sync(rt.alloc(), b"sync")?);
    Ok(())
}

/// What is no line.
static NO_LINES: [&[u8]; 32] = [
    b"",
    b" ",
    b"0",
    b"look",
    b"0 look",
    b"0 look ",
    b"0 look / ",
    b"0 look / /",
    b"0 rename a",
    b"0 rename a ",
    b"0 rename a b c",
    b"0 symlink  l",
    b"0 rename2 a b",
    b"0 rename2 xn a b",
    b"0 rename2 \\e a b",
    b"0 rename2 - a",
    b"0  look /",
    b" 0 look /",
    b"16 look /",
    b"00 look /",
    b"-1 look /",
    b"0 Look /",
    b"0 gaze /",
    b"0 look \\x",
    b"0 look \\",
    b"0 look a\\eb",
    b"0 look \\e\\e",
    b"0 look a\nb",
    b"0 look /\n",
    b"sync 0",
    b"0 sync",
    b"sync ",
];

#[test]
fn refuses_what_is_no_line(rt: HostRuntime) {
    for line in NO_LINES.iter() {
        assert!(rt; is_bad(rt.alloc(), line), "{line:?}");
    }
}

/// Texts of links, points, and how they are written.
static TEXTS: [(&[u8], u64, &[u8]); 2] = [
    (
        b" \n\\\0\xff",
        u64::MAX,
        b"0 text \\s\\n\\\\\0\xff @18446744073709551615\n",
    ),
    (b"", 0, b"0 text \\e @0\n"),
];

/// Whether the text of a link is written so.
fn is_written(alloc: Global, text: &[u8], at: u64, line: &[u8]) -> Result<bool, NoMemory> {
    let reply = Reply::Text(Vec::from_slice(alloc, text)?);
    let written = write_reply(alloc, 0, &Stamped { reply, at })?;
    Ok(written.as_slice() == line)
}

#[test]
fn spells_each_byte(rt: HostRuntime) -> Result<(), Fail> {
    for (text, at, line) in TEXTS.iter() {
        assert!(rt; is_written(rt.alloc(), text, *at, line)?, "{text:?}");
    }
    each_line_has_one_meaning();
    Ok(())
}

/// Lines that are their own spelling.
static LINES: [&[u8]; 10] = [
    b"sync",
    b"0 mkdir /a",
    b"0 cd /a",
    b"1 rmdir /a",
    b"0 look .",
    b"0 look /",
    b"15 mkdir a\\sb\\nc\\\\e",
    b"6 symlink \\e l",
    b"11 rename a b",
    b"9 list /\0\xff",
];

/// Whether a line is written as it was read.
fn is_its_own(alloc: Global, line: &[u8]) -> Result<bool, Fail> {
    let text = write_line(alloc, &read_line(alloc, line)?)?;
    Ok(text.as_slice() == line)
}

#[test]
fn writes_the_lines_that_it_reads(rt: HostRuntime) -> Result<(), Fail> {
    for line in LINES.iter() {
        assert!(rt; is_its_own(rt.alloc(), line)?, "{line:?}");
    }
    Ok(())
}

/// Lines of replies, also of some that no tree gives.
static REPLIES: [&[u8]; 14] = [
    b"0 is 2 dir @1\n",
    b"9 is 4 file @3\n",
    b"15 is 5 link @3\n",
    b"10 ok 2 @0\n",
    b"0 ok @4\n",
    b"0 no 17 @0\n",
    b"0 stat 3 file 1 @3\n",
    b"0 text ./d @3\n",
    b"0 text \\e @18446744073709551615\n",
    b"0 names @3 a\\sb @2\n",
    b"0 names @2\n",
    b"0 is 0 dir @0\n",
    b"0 stat 18446744073709551615 link 0 @0\n",
    b"0 no 0 @0\n",
];

/// Whether a line of a reply is written as it was read.
fn is_written_again(alloc: Global, line: &[u8]) -> Result<bool, Fail> {
    let (session, stamped) = read_reply(alloc, line)?;
    let text = write_reply(alloc, session, &stamped)?;
    Ok(text.as_slice() == line && session < SESSIONS)
}

#[test]
fn writes_the_replies_that_it_reads(rt: HostRuntime) -> Result<(), Fail> {
    for line in REPLIES.iter() {
        assert!(rt; is_written_again(rt.alloc(), line)?, "{line:?}");
    }
    Ok(())
}

/// Whether an answer tells one name at a point.
fn is_named(told: &Stamped, name: &[u8], at: u64) -> bool {
    match &told.reply {
        Reply::Names(names) => are(names, &[name]) && told.at == at,
        _ => false,
    }
}

#[test]
fn reads_a_name_that_looks_like_a_point(rt: HostRuntime) -> Result<(), Fail> {
    let (_, told) = read_reply(rt.alloc(), b"3 names @3 @7\n")?;
    assert!(rt; is_named(&told, b"@3", 7));
    Ok(())
}

/// What is no line of a reply.
static NO_REPLIES: [&[u8]; 22] = [
    b"",
    b"\n",
    b"0 ok @0",
    b"0 ok @0\n\n",
    b"16 ok @0\n",
    b"00 ok @0\n",
    b"0  ok @0\n",
    b"0 ok @0 \n",
    b"0 ok\n",
    b"0 ok 0\n",
    b"0 ok @\n",
    b"0 ok @x\n",
    b"0 ok @01\n",
    b"0 ok @+1\n",
    b"0 ok @18446744073709551616\n",
    b"0 ok 2 3 @0\n",
    b"0 is 2 @0\n",
    b"0 is 2 pipe @0\n",
    b"0 stat 2 dir @0\n",
    b"0 text @0\n",
    b"0 text \\x @0\n",
    b"0 fine @0\n",
];

fn is_no_reply(alloc: Global, line: &[u8]) -> bool {
    matches!(read_reply(alloc, line), Err(LineFault::Bad))
}

#[test]
fn refuses_what_is_no_reply(rt: HostRuntime) {
    for line in NO_REPLIES.iter() {
        assert!(rt; is_no_reply(rt.alloc(), line), "{line:?}");
    }
}

/// How many lines a text has, or its first bad line.
type Lines = Result<usize, InputFault>;

static INPUTS: [(&str, Lines); 6] = [
    ("", Ok(0)),
    ("sync", Ok(1)),
    ("sync\n0 look /\n", Ok(2)),
    ("\n", Err(InputFault::BadLine(1))),
    ("sync\n\n", Err(InputFault::BadLine(2))),
    ("sync\n0 look\n16 look /\n", Err(InputFault::BadLine(2))),
];

fn lines_in(alloc: Global, input: &str) -> Lines {
    let lines = read_lines(alloc, input.as_bytes())?;
    Ok(lines.len())
}

#[test]
fn reads_the_lines_of_inputs(rt: HostRuntime) {
    for (input, want) in INPUTS.iter() {
        assert!(rt; lines_in(rt.alloc(), input) == *want, "{input}");
    }
}

static OUTPUTS: [(&str, Lines); 6] = [
    ("", Ok(0)),
    ("0 ok @0\n", Ok(1)),
    ("0 ok @0\n1 no 2 @1\n", Ok(2)),
    ("0 ok @0", Err(InputFault::BadLine(1))),
    ("0 ok @0\n1 no 2 @1", Err(InputFault::BadLine(2))),
    ("0 ok @0\n\n", Err(InputFault::BadLine(2))),
];

fn replies_in(alloc: Global, output: &str) -> Lines {
    let told = read_replies(alloc, output.as_bytes())?;
    Ok(told.len())
}

#[test]
fn reads_the_lines_of_outputs(rt: HostRuntime) {
    for (output, want) in OUTPUTS.iter() {
        assert!(rt; replies_in(rt.alloc(), output) == *want, "{output}");
    }
}

/// Whether a fault of a line has this text.
fn is_told(alloc: Global, fault: LineFault, text: &str) -> Result<bool, AllocError> {
    let told = fault.to_string(alloc)?;
    Ok(told.as_str() == text)
}

/// Whether a fault of an input tells its line.
fn is_line_told(alloc: Global, line: u64, text: &str) -> Result<bool, AllocError> {
    let told = InputFault::BadLine(line).to_string(alloc)?;
    Ok(told.as_str() == text)
}

/// Whether each fault of a line has its text.
fn are_told(alloc: Global) -> Result<bool, AllocError> {
    let bad = is_told(alloc, LineFault::Bad, "bad line")?;
    Ok(bad && is_told(alloc, LineFault::NoMemory, "no memory")?)
}

#[test]
fn tells_faults(rt: HostRuntime) -> Result<(), Fail> {
    assert!(rt; are_told(rt.alloc())? && is_line_told(rt.alloc(), 7, "bad line 7")?);
    Ok(())
}
