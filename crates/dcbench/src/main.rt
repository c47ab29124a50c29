//! Times the cache by its public calls alone, and how long they hold its lock, also beside threads that hold
//! it for long, and races look-ups against changes.
#![tactic(auto)]

mod answers;
mod args;
mod causes;
mod drawing;
mod fault;
mod gate;
mod held;
mod holding;
mod holds;
mod look;
mod order;
mod own;
mod race;
mod racing;
mod report;
mod rows;
mod table;
mod tally;
mod threads;
mod tree;
mod waiting;
mod waits;
mod work;

ghost use Rattle.std.specs.Thread.{IsSync};

use fault::Fault;
use std::process::ExitCode;
use std::rt::{Clock, Files};
use std::sync::Wait;
use std::thread::Threads;
use std::{env, io};

/// The words after the program's name.
fn words(rt: &HostRuntime) -> Result<Vec<String>, Fault> {
    let all = env::args(rt).map_err(|error| match error.kind() {
        io::ErrorKind::OutOfMemory => Fault::NoMemory,
        _ => Fault::NoText,
    })?;
    Ok(all.skip(1).collect(rt.alloc())?)
}

/// Does what the words ask for.
fn run<R: Threads + Wait + Clock + Sync + Print + Eprint + Files + AllocGlobal>(
    rt: &R,
    words: Result<Vec<String>, Fault>,
) -> Result<(), Fault>
    requires { IsSync R.row }
{
    let words = words?;
    let task = args::task_of(rt.alloc(), &words)?;
    table::perform(rt, rt.alloc(), &task)
}

fn main(rt: HostRuntime) -> ExitCode {
    let words = words(&rt);
    ExitCode::from(match run(&rt, words) {
        Ok(()) => 0,
        Err(fault) => fault.tell(&rt),
    })
}
