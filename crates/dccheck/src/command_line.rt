//! The words of the command line.

use crate::faults::Fault;
use clap::{Arg, ArgAction, ArgMatches, Command, Error};
use dc_trace::Errors;
use std::alloc::{AllocError, Global};
use std::time::Duration;

/// What is judged, by the paths of files. A dash is standard input.
#[derive(Clone, Copy)]
pub enum Task<'a> {
    /// The commands of a server and its replies.
    Record { commands: &'a str, replies: &'a str },
    /// Calls with their times.
    Trace(&'a str),
}

/// What the words choose.
#[derive(Clone, Copy)]
pub struct Options<'a> {
    /// How many inodes may live: 0 if the word is no number of 64 bits.
    pub inodes: u64,
    /// How many states of a trace are visited: the same.
    pub states: u64,
    /// How many megabytes these may take: the same.
    pub memory: u64,
    /// Whose numbers of errors a trace has.
    pub errors: Errors,
    /// Whether one line of JSON is written.
    pub json: bool,
    pub task: Task<'a>,
}

/// What the words after `soak` choose.
#[derive(Clone, Copy)]
pub struct Soak {
    /// After this time no further cache is begun.
    pub time: Duration,
    /// The number that the first cache's calls are drawn by. Each further one has the next.
    pub seed: u64,
    /// The calls of all threads on a cache.
    pub calls: u64,
    /// Writes the verdict alone, which is the same whatever the threads do.
    pub brief: bool,
}

/// What an option or a file is given.
#[derive(Clone, Copy)]
enum Given {
    /// Nothing: it is a flag.
    Nothing,
    /// A number, and its default.
    Number(&'static str),
    /// One of a few words, and its default.
    Word(&'static str),
    /// The path of a trace.
    Trace,
    /// The path of a file of a record, which stands without a name before it.
    Record,
}

/// An option or a file: its name, what it is given, and what it is for.
#[derive(Clone, Copy)]
struct Choice(&'static str, Given, &'static str);

/// The name of the program, and what it is for.
const RECORD: (&str, &str) = (
    "dccheck",
    "Says whether stamped replies are what one plain tree answers\nCaches are judged by `dccheck soak`, which has a `--help` of its own",
);

/// The same of the soak.
const SOAK: (&str, &str) = (
    "dccheck soak",
    "Threads make calls of all kinds on one cache after another. What they were answered is judged, and
the tree of each cache is compared with the one that its changes make alone. Ends with status 1 if a
cache was wrong.",
);

static SOAKS: [Choice; 4] = [
    Choice(
        "seconds",
        Given::Number("10"),
        "After this many seconds no further cache is begun: up to 1000000",
    ),
    Choice(
        "seed",
        Given::Number("1"),
        "The number of the first cache, by which its calls are drawn; each further one has the next",
    ),
    Choice(
        "calls",
        Given::Number("8000"),
        "Calls of all threads on a cache: from 16 to 1000000",
    ),
    Choice("brief", Given::Nothing, "Prints the verdict alone"),
];

static RECORDS: [Choice; 8] = [
    Choice(
        "inodes",
        Given::Number("65536"),
        "How many inodes may live: from 1 to 1048576",
    ),
    Choice(
        "trace",
        Given::Trace,
        "Judges calls with their times in place of a record: a file, or -",
    ),
    Choice(
        "states",
        Given::Number("10000000"),
        "How many states are visited to find an order of the trace",
    ),
    Choice(
        "memory",
        Given::Number("1024"),
        "How many megabytes these states may take",
    ),
    Choice(
        "errors",
        Given::Word("exact"),
        "Which numbers of errors a trace may have: exact, linux or posix",
    ),
    Choice("json", Given::Nothing, "One line of JSON"),
    Choice(
        "COMMANDS",
        Given::Record,
        "What the server read: a file, or - for standard input",
    ),
    Choice(
        "REPLIES",
        Given::Record,
        "What it answered: a file, or - for standard input",
    ),
];

/// An option or a file.
fn arg_of<'a>(alloc: Global, choice: &Choice) -> Result<Arg<'a>, AllocError> {
    let Choice(id, given, help) = *choice;
    let arg = Arg::new(alloc, id).help(help);
    match given {
        Given::Nothing => Ok(arg.long(id).action(ArgAction::SetTrue)),
        Given::Number(default) => Ok(arg.long(id).value_name("N").default_value(default)),
        Given::Word(default) => Ok(arg.long(id).value_name("WORD").default_value(default)),
        Given::Trace => Ok(arg.long(id).value_name("FILE")),
        Given::Record => arg
            .required_unless_present("trace")?
            .conflicts_with("trace"),
    }
}

/// The options and the files.
fn args<'a>(alloc: Global, choices: &[Choice]) -> Result<Vec<Arg<'a>>, AllocError> {
    let mut args = Vec::new(alloc);
    for choice in choices {
        args.push(arg_of(alloc, choice)?)?;
    }
    Ok(args)
}

/// What clap finds among the words of a command that has these.
fn matches_in<'a>(
    alloc: Global,
    (name, about): (&'static str, &'static str),
    choices: &[Choice],
    words: &'a [String],
) -> Result<ArgMatches<'a>, Error> {
    Command::new(alloc, name)
        .about(about)
        .no_binary_name(true)
        .args(args(alloc, choices)?)?
        .try_get_matches_from(words)
}

/// The text of an argument, empty if clap found none.
fn text_of<'a>(matches: &ArgMatches<'a>, id: &str) -> &'a str {
    matches.get_str(id).unwrap_or("")
}

/// What is judged.
fn task_in<'a>(matches: &ArgMatches<'a>) -> Result<Task<'a>, Fault> {
    if let Some(trace) = matches.get_str("trace") {
        return Ok(Task::Trace(trace));
    }
    let commands = text_of(matches, "COMMANDS");
    let replies = text_of(matches, "REPLIES");
    if commands == "-" && replies == "-" {
        return Err(Fault::OneInput);
    }
    Ok(Task::Record { commands, replies })
}

/// The number of an option, if it is within these limits.
fn number_in(matches: &ArgMatches<'_>, id: &str, least: u64, most: u64) -> Result<u64, Fault> {
    match text_of(matches, id).parse::<u64>() {
        Ok(number) if least <= number && number <= most => Ok(number),
        _ => Err(Fault::BadSize),
    }
}

/// What the words after `soak` choose.
pub fn soak_in(alloc: Global, words: &[String]) -> Result<Soak, Fault> {
    let matches = matches_in(alloc, SOAK, &SOAKS, words).map_err(Fault::Words)?;
    Ok(Soak {
        time: Duration::from_secs(number_in(&matches, "seconds", 0, 1_000_000)?),
        seed: number_in(&matches, "seed", 0, u64::MAX)?,
        calls: number_in(&matches, "calls", 16, 1_000_000)?,
        brief: matches.get_flag("brief"),
    })
}

/// The numbers of errors that a word chooses.
fn errors_in(word: &str) -> Result<Errors, Fault> {
    match word {
        "exact" => Ok(Errors::Exact),
        "linux" => Ok(Errors::Linux),
        "posix" => Ok(Errors::Posix),
        _ => Err(Fault::BadErrors),
    }
}

/// The options that the words after the program's name choose.
pub fn options_in<'a>(alloc: Global, words: &'a [String]) -> Result<Options<'a>, Fault> {
    let matches = matches_in(alloc, RECORD, &RECORDS, words).map_err(Fault::Words)?;
    Ok(Options {
        inodes: text_of(&matches, "inodes").parse::<u64>().unwrap_or(0),
        states: text_of(&matches, "states").parse::<u64>().unwrap_or(0),
        memory: text_of(&matches, "memory").parse::<u64>().unwrap_or(0),
        errors: errors_in(text_of(&matches, "errors"))?,
        json: matches.get_flag("json"),
        task: task_in(&matches)?,
    })
}
