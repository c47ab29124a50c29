//! Has one call of a trial meet a refused allocation, and says what came of it: the runner refuses the
//! program's Nth allocation, and the program makes some of its own first, so that it falls where it should.
#![tactic(auto)]

mod acts;
mod fault;
mod later;
mod lines;
mod news;
mod probe;
mod records;
mod serving;
mod told;
mod traces;
mod trial;
mod ways;
mod words;

ghost use Rattle.std.specs.Thread.{IsSync};

use fault::Fault;
use lines::Input;
use probe::{Plan, pad};
use std::alloc::Global;
use std::io::Read;
use std::process::ExitCode;
use std::sync::Wait;
use std::thread::Threads;
use std::{env, io};
use told::Told;

/// The words after the program's name.
fn words_of(rt: &HostRuntime) -> Result<Vec<String>, Fault> {
    let all = env::args(rt).map_err(|_| Fault::Setup)?;
    Ok(all.skip(1).collect(rt.alloc())?)
}

/// A number among the words, or 0.
fn number_at(words: &[String], at: usize) -> u64 {
    match words.get(at) {
        Some(word) => word.parse().unwrap_or(0),
        None => 0,
    }
}

/// What the words plan: the trial, how many allocations come first, how many are tried behind the call, and
/// whether that is done in place of the call.
fn plan_of(words: &[String]) -> Result<Plan<'_>, Fault> {
    let name = words.first().ok_or(Fault::Words)?;
    Ok(Plan {
        name,
        pad: number_at(words, 1),
        most: number_at(words, 2),
        setup: words.get(3).is_some_and(|word| word.as_str() == "setup"),
    })
}

/// Makes the trial, over the lines of standard input.
fn run<R: Threads + Wait + Sync>(
    rt: &R,
    alloc: Global,
    plan: &Plan<'_>,
    bytes: &[u8],
) -> Result<Told, Fault>
    requires sync { IsSync R.row }
{
    let input = Input::of(alloc, bytes)?;
    pad(alloc, plan.pad)?;
    match plan.name {
        "check" | "check_phases" | "record_of" | "reply_due" => records::trial(
            rt, alloc, plan, &input,
        ),
        "write_line" | "options" => words::trial(alloc, plan, &input),
        "run" => serving::trial(rt, alloc, plan, &input),
        "core_step" | "core_run" => acts::trial(alloc, plan),
        "trace" => Ok(traces::trial(alloc, plan)),
        _ => match news::kind_of(plan.name) {
            Some(kind) => news::trial(alloc, plan, kind),
            None => trial::trial(rt, alloc, plan, &input),
        },
    }
}

/// The words, and the bytes of standard input.
fn read(rt: &HostRuntime) -> Result<(Vec<String>, Vec<u8>), Fault> {
    let words = words_of(rt)?;
    let mut bytes = Vec::new(rt.alloc());
    rt.stdin()
        .read_to_end(&mut bytes)
        .map_err(|_| Fault::Setup)?;
    Ok((words, bytes))
}

/// Makes the trial that the words plan, over the lines of standard input.
fn try_it<R: Threads + Wait + Sync>(
    rt: &R,
    alloc: Global,
    read: Result<(Vec<String>, Vec<u8>), Fault>,
) -> Result<Told, Fault>
    requires sync { IsSync R.row }
{
    let (words, bytes) = read?;
    let plan = plan_of(&words)?;
    run(rt, alloc, &plan, &bytes)
}

fn main(rt: HostRuntime) -> ExitCode {
    let read = read(&rt);
    let printed = match try_it(&rt, rt.alloc(), read) {
        Ok(told) => println!(rt; "{told}"),
        Err(fault) => println!(rt; "{fault}"),
    };
    ExitCode::from(if printed.is_ok() { 0 } else { 4 })
}
