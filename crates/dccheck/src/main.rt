//! The checker as a program: it says whether a server's replies are what one plain tree answers, or judges
//! caches that its own threads make calls on.
#![tactic(auto)]

mod command_line;
mod counts;
mod faults;
mod near;
mod progress;
mod record;
mod report;
mod soak;
mod table;
mod traces;

ghost use Rattle.std.specs.Prelude.{◌≤◌};
ghost use Rattle.dc_names.specs.declared.limits.TheConstants.{MOST_INODES};

use command_line::{Options, Task, options_in};
use counts::Counts;
use dc_plain::MOST_INODES;
use dc_trace::Rules;
use faults::{Fault, File};
use progress::Progress;
use record::Record;
use report::{Report, json_line};
use std::io::{Read, Write};
use std::process::ExitCode;
use std::{env, fs, io};
use traces::{Found, explain};

/// The words after the program's name.
fn words(rt: &HostRuntime) -> Result<Vec<String>, Fault> {
    let all = env::args(rt).map_err(|error| unless_memory(&error, Fault::NoText))?;
    Ok(all.skip(1).collect(rt.alloc())?)
}

/// The fault of an error, which is this one unless memory was refused.
fn unless_memory(error: &io::Error, fault: Fault) -> Fault {
    if error.kind() == io::ErrorKind::OutOfMemory {
        Fault::NoMemory
    } else {
        fault
    }
}

/// The bytes of a file, or of standard input.
fn bytes_of(rt: &HostRuntime, path: &str) -> io::Result<Vec<u8>> {
    if path != "-" {
        return fs::read(rt, path);
    }
    let mut bytes = Vec::new(rt.alloc());
    rt.stdin().read_to_end(&mut bytes)?;
    Ok(bytes)
}

fn read(rt: &HostRuntime, path: &str, file: File) -> Result<Vec<u8>, Fault> {
    bytes_of(rt, path).map_err(|error| unless_memory(&error, Fault::Unread(file)))
}

/// Writes the verdict.
fn write(rt: &HostRuntime, text: &[u8]) -> Result<(), Fault> {
    rt.stdout().write_all(text).map_err(|_| Fault::Write)
}

/// Writes what was judged, on standard error. The verdict stands already.
fn tell_counts(rt: &HostRuntime, options: &Options, counts: &Counts) {
    if !options.json {
        let _ = eprintln!(rt; "judged: {counts}");
    }
}

/// Writes the verdict on a record, and what was judged. Answers the status.
fn tell_report(rt: &HostRuntime, options: &Options, report: &Report) -> Result<u8, Fault> {
    let text = if options.json {
        json_line(rt.alloc(), report.members(rt.alloc())?)?
    } else {
        report.text(rt.alloc())?
    };
    write(rt, &text)?;
    tell_counts(rt, options, &report.counts);
    Ok(if report.is_legal() { 0 } else { 1 })
}

/// Judges a record whose files are read. Answers the status.
fn check_bytes(
    rt: &HostRuntime,
    options: &Options,
    progress: &Progress,
    input: &[u8],
    output: &[u8],
) -> Result<u8, Fault>
    requires least { 1 ≤ options.now.inodes }
    requires most { options.now.inodes ≤ MOST_INODES }
{
    let record = Record::read(rt.alloc(), input, output)?;
    progress.tell(rt, "the replies are paired with the commands");
    let report = record.judge(rt.alloc(), options.inodes)?;
    tell_report(rt, options, &report)
}

/// Judges a record. Answers the status.
fn check_record(
    rt: &HostRuntime,
    options: &Options,
    commands: &str,
    replies: &str,
) -> Result<u8, Fault>
    requires least { 1 ≤ options.now.inodes }
    requires most { options.now.inodes ≤ MOST_INODES }
{
    let progress = Progress::new(rt);
    let input = read(rt, commands, File::Commands)?;
    let output = read(rt, replies, File::Replies)?;
    progress.tell(rt, "the files are read");
    check_bytes(rt, options, &progress, &input, &output)
}

/// Writes what is said of a trace, and what was judged. Answers the status.
fn tell_found(
    rt: &HostRuntime,
    options: &Options,
    trace: &[u8],
    found: &Found,
) -> Result<u8, Fault> {
    let text = if options.json {
        found.json(rt.alloc(), trace)?
    } else {
        found.text(rt.alloc(), trace)?
    };
    write(rt, &text)?;
    if let Found::Legal(_, _, report) = found {
        tell_counts(rt, options, &report.counts);
    }
    Ok(found.status())
}

/// Judges a trace. Answers the status.
fn check_trace(rt: &HostRuntime, options: &Options, path: &str) -> Result<u8, Fault>
    requires least { 1 ≤ options.now.inodes }
    requires most { options.now.inodes ≤ MOST_INODES }
{
    let progress = Progress::new(rt);
    let trace = read(rt, path, File::Trace)?;
    progress.tell(rt, "the file is read");
    let rules = Rules {
        inodes: options.inodes,
        errors: options.errors,
        states: options.states,
        memory: options.memory.saturating_mul(1 << 20),
    };
    let found = explain(rt.alloc(), rules, &trace)?;
    tell_found(rt, options, &trace, &found)
}

/// Reads the files and writes the verdict. Answers the status.
fn judge(rt: &HostRuntime, words: &[String]) -> Result<u8, Fault> {
    let options = options_in(rt.alloc(), words)?;
    if !(1..=MOST_INODES).contains(&options.inodes) || options.states == 0 || options.memory == 0 {
        return Err(Fault::BadSize);
    }
    match options.task {
        Task::Record { commands, replies } => check_record(rt, &options, commands, replies),
        Task::Trace(path) => check_trace(rt, &options, path),
    }
}

/// Whether the words ask for the soak.
fn is_soak(words: &[String]) -> bool {
    words.first().is_some_and(|first| first.as_str() == "soak")
}

/// Tells a fault, help on standard output and all else on standard error. Answers the status.
fn tell(rt: &HostRuntime, fault: &Fault) -> u8 {
    let status = fault.status();
    let _ = match fault {
        Fault::Words(error) if status != 3 => error.print(rt),
        Fault::Wrong => Ok(()),
        Fault::Unread(file) => eprintln!(rt; "dccheck: {} can't be read", file.name()),
        Fault::BadLine(file, line) => {
            eprintln!(rt; "dccheck: bad line {line} of {}", file.name())
        }
        Fault::Unpaired(line) => {
            eprintln!(rt; "dccheck: line {line} of REPLIES isn't the reply to its command")
        }
        _ => eprintln!(rt; "dccheck: {}", fault.text()),
    };
    status
}

/// The status that the program ends with. A fault is said.
fn ended(rt: &HostRuntime, run: &Result<u8, Fault>) -> u8 {
    match run {
        Ok(status) => *status,
        Err(fault) => tell(rt, fault),
    }
}

fn main(rt: HostRuntime) -> ExitCode {
    ExitCode::from(match words(&rt) {
        Ok(words) if is_soak(&words) => ended(&rt, &soak::run(&rt, rt.alloc(), &words)),
        Ok(words) => ended(&rt, &judge(&rt, &words)),
        Err(fault) => tell(&rt, &fault),
    })
}
