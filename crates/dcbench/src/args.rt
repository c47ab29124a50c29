//! The words of the command line.

use crate::fault::Fault;
use crate::work::{
    ChangeTask, HoldTask, LookTask, Miss, RaceTask, Shape, Sort, Style, Task, WaitTask, Work,
};
use clap::builder::ValueParser;
use clap::{Arg, ArgAction, ArgMatches, Command, Error};
use dc_names::MOST_TABLE_BUCKETS;
use std::alloc::{AllocError, Global};
use std::time::Duration;

const ABOUT: &str =
    "Times a cache of directory entries by its public calls, and races look-ups against changes.
Without a command it prints a table of everything, in under a minute.";

const WORKS: [&str; 7] = ["read", "texts", "absent", "mixed", "churn", "miss", "links"];

static RACES: [&str; 2] = ["rename", "exchange"];

/// What an option is given.
#[derive(Clone, Copy)]
enum Given {
    /// Nothing: it is a flag.
    Nothing,
    /// The path of a file.
    File,
    /// A value: what stands for it in the help, its default, and what it has to be.
    Value(&'static str, &'static str, ValueParser<'static>),
    /// A race, which stands without a name before it.
    Race,
}

/// An option of a command: its name, what it is given, and what it is for.
#[derive(Clone, Copy)]
struct Choice(&'static str, Given, &'static str);

const THREADS: Choice = Choice(
    "threads",
    Given::Value("N", "1", ValueParser::Unsigned(1, 64)),
    "Threads, from 1 to 64",
);

const SECONDS: Choice = Choice(
    "seconds",
    Given::Value("S", "0.3", ValueParser::Float),
    "How long each row of the table is timed, as 0.5",
);

const JSON: Choice = Choice("json", Given::Nothing, "A line of JSON for each row");

const LOOK: [Choice; 5] = [
    THREADS,
    Choice(
        "tree",
        Given::File,
        "Looks up the paths of this tree, as the command tree writes one",
    ),
    SECONDS,
    JSON,
    Choice(
        "one-hold",
        Given::Nothing,
        "Looks up by resolve: a miss takes the lock once",
    ),
];

/// The options of a tree that is drawn.
const SHAPE: [Choice; 4] = [
    Choice(
        "work",
        Given::Value("WORK", "read", ValueParser::Names(&WORKS)),
        "What is looked up, and what is changed in between",
    ),
    Choice(
        "depth",
        Given::Value("N", "4", ValueParser::Unsigned(1, 64)),
        "Names of a path, from 1 to 64",
    ),
    Choice(
        "hot",
        Given::Value("N", "1000", ValueParser::Unsigned(1, 100_000)),
        "Files that are asked",
    ),
    Choice(
        "buckets",
        Given::Value("N", "1024", ValueParser::Unsigned(1, MOST_TABLE_BUCKETS)),
        "Buckets of four rows: a power of two up to 4194304",
    ),
];

const CHANGE: [Choice; 3] = [THREADS, SECONDS, JSON];

const WAITS: [Choice; 4] = [
    Choice(
        "hogs",
        Given::Value("N", "3", ValueParser::Unsigned(1, 62)),
        "Threads that hold the lock, from 1 to 62",
    ),
    Choice(
        "hold",
        Given::Value("MS", "5", ValueParser::Unsigned(1, 100)),
        "For how many milliseconds they hold it at a time, about, from 1 to 100",
    ),
    Choice(
        "seconds",
        Given::Value("S", "5", ValueParser::Float),
        "How long each row of the table is timed, as 0.5",
    ),
    JSON,
];

const HOLDS: [Choice; 3] = [
    Choice(
        "threads",
        Given::Value("N", "4", ValueParser::Unsigned(1, 64)),
        "Threads, from 1 to 64",
    ),
    SECONDS,
    JSON,
];

const RACE: [Choice; 6] = [
    Choice("RACE", Given::Race, "What is renamed above the path"),
    Choice(
        "depth",
        Given::Value("N", "4", ValueParser::Unsigned(1, 64)),
        "Directories between what is renamed and the file, from 1 to 64",
    ),
    Choice(
        "looks",
        Given::Value("N", "1000000", ValueParser::Unsigned(1, 1_000_000_000)),
        "Look-ups of all threads",
    ),
    Choice(
        "threads",
        Given::Value("N", "2", ValueParser::Unsigned(1, 64)),
        "Threads, from 1 to 64",
    ),
    Choice("json", Given::Nothing, "One line of JSON"),
    Choice(
        "wrong-only",
        Given::Nothing,
        "Prints the number of wrong answers alone",
    ),
];

/// A command: its name, what it is for, its own options, and those of a tree, if it draws one.
#[derive(Clone, Copy)]
struct Deed(
    &'static str,
    &'static str,
    &'static [Choice],
    &'static [Choice],
);

static DEEDS: [Deed; 6] = [
    Deed("look", "Times look-ups by 1 to N threads", &LOOK, &SHAPE),
    Deed(
        "change",
        "Times changes by 1 to N threads, each of which makes and unlinks a file of its own",
        &CHANGE,
        &[],
    ),
    Deed(
        "waits",
        "Times changes and missed look-ups beside 1 to N threads that hold the lock for long",
        &WAITS,
        &[],
    ),
    Deed(
        "holds",
        "Times how long each kind of call holds the lock, and how long it waits, by 1 to N threads",
        &HOLDS,
        &[],
    ),
    Deed(
        "race",
        "Looks up while a directory of the path is renamed, and counts the wrong answers",
        &RACE,
        &[],
    ),
    Deed(
        "tree",
        "Writes the lines of a tree that is drawn",
        &[],
        &SHAPE,
    ),
];

/// An option with a value, if it isn't given one.
fn valued<'a>(arg: Arg<'a>, name: &'a str, default: &'a str, parser: ValueParser<'a>) -> Arg<'a> {
    arg.value_name(name)
        .default_value(default)
        .value_parser(parser)
}

/// An option of a command.
fn arg_of<'a>(alloc: Global, choice: &Choice) -> Arg<'a> {
    let Choice(id, given, help) = *choice;
    let arg = Arg::new(alloc, id).help(help);
    match given {
        Given::Nothing => arg.long(id).action(ArgAction::SetTrue),
        Given::File => arg.long(id).value_name("FILE"),
        Given::Value(name, default, parser) => valued(arg.long(id), name, default, parser),
        Given::Race => arg.required(true).value_parser(RACES.as_slice()),
    }
}

/// Adds some options.
fn add_args<'a>(
    alloc: Global,
    args: &mut Vec<Arg<'a>>,
    choices: &[Choice],
) -> Result<(), AllocError> {
    for choice in choices {
        args.push(arg_of(alloc, choice))?;
    }
    Ok(())
}

fn command_of<'a>(alloc: Global, deed: &Deed) -> Result<Command<'a>, AllocError> {
    let Deed(name, about, own, shape) = *deed;
    let mut args = Vec::new(alloc);
    add_args(alloc, &mut args, own)?;
    add_args(alloc, &mut args, shape)?;
    Command::new(alloc, name).about(about).args(args)
}

/// The commands.
fn commands<'a>(alloc: Global) -> Result<Vec<Command<'a>>, AllocError> {
    let mut commands = Vec::new(alloc);
    for deed in &DEEDS {
        commands.push(command_of(alloc, deed)?)?;
    }
    Ok(commands)
}

/// The program with its commands.
fn program<'a>(alloc: Global) -> Result<Command<'a>, AllocError> {
    let commands = commands(alloc)?;
    Command::new(alloc, "dcbench")
        .about(ABOUT)
        .no_binary_name(true)
        .subcommands(commands)
}

fn matches_in<'a>(alloc: Global, words: &'a [String]) -> Result<ArgMatches<'a>, Error> {
    program(alloc)?.try_get_matches_from(words)
}

/// The number of an option, which has a default.
fn number_of(matches: &ArgMatches<'_>, id: &str) -> u64 {
    matches.get_one::<u64>(id).unwrap_or(1)
}

/// The time of an option, at most an hour.
fn time_of(matches: &ArgMatches<'_>) -> Duration {
    let seconds = matches.get_one::<f64>("seconds").unwrap_or(0.3);
    Duration::try_from_secs_f64(seconds)
        .unwrap_or(Duration::from_millis(300))
        .min(Duration::from_secs(3600))
}

fn shape_of(matches: &ArgMatches<'_>, miss: Miss) -> Shape {
    Shape {
        miss,
        work: Work::of(matches.get_str("work").unwrap_or("read")),
        depth: number_of(matches, "depth"),
        hot: number_of(matches, "hot"),
        buckets: number_of(matches, "buckets"),
    }
}

fn look_of<'a>(matches: &ArgMatches<'a>) -> LookTask<'a> {
    let miss = if matches.get_flag("one-hold") {
        Miss::OneHold
    } else {
        Miss::NameByName
    };
    LookTask {
        threads: number_of(matches, "threads"),
        time: time_of(matches),
        shape: shape_of(matches, miss),
        tree: matches.get_str("tree"),
        json: matches.get_flag("json"),
    }
}

fn race_of(matches: &ArgMatches<'_>) -> RaceTask {
    let sort = match matches.get_str("RACE") {
        Some("exchange") => Sort::Exchange,
        _ => Sort::Rename,
    };
    let style = if matches.get_flag("json") {
        Style::Json
    } else if matches.get_flag("wrong-only") {
        Style::WrongOnly
    } else {
        Style::Table
    };
    RaceTask {
        sort,
        depth: number_of(matches, "depth"),
        looks: number_of(matches, "looks"),
        threads: number_of(matches, "threads"),
        style,
    }
}

fn change_of(matches: &ArgMatches<'_>) -> ChangeTask {
    ChangeTask {
        threads: number_of(matches, "threads"),
        time: time_of(matches),
        json: matches.get_flag("json"),
    }
}

fn waits_of(matches: &ArgMatches<'_>) -> WaitTask {
    WaitTask {
        hogs: number_of(matches, "hogs"),
        time: time_of(matches),
        hold: Duration::from_millis(number_of(matches, "hold")),
        json: matches.get_flag("json"),
    }
}

fn holds_of(matches: &ArgMatches<'_>) -> HoldTask {
    HoldTask {
        threads: number_of(matches, "threads"),
        time: time_of(matches),
        json: matches.get_flag("json"),
    }
}

/// What a command and its options ask for.
fn task_in<'a>(matches: &ArgMatches<'a>) -> Task<'a> {
    let Some((name, found)) = matches.subcommand() else {
        return Task::All;
    };
    match name {
        "look" => Task::Look(look_of(found)),
        "change" => Task::Change(change_of(found)),
        "waits" => Task::Waits(waits_of(found)),
        "holds" => Task::Holds(holds_of(found)),
        "race" => Task::Race(race_of(found)),
        _ => Task::Tree(shape_of(found, Miss::NameByName)),
    }
}

/// What the words after the program's name ask for.
pub fn task_of<'a>(alloc: Global, words: &'a [String]) -> Result<Task<'a>, Fault> {
    Ok(task_in(&matches_in(alloc, words)?))
}
