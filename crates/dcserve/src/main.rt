//! The server as a program: commands on standard input, replies on standard output.
#![tactic(auto)]

use dc_serve::{FreeGate, Options, OptionsFault, ServeFault, Stats, options, run};
use std::alloc::Global;
use std::io::{Read, Write};
use std::process::ExitCode;
use std::sync::Wait;
use std::thread::Threads;
use std::{env, io};

/// The words after the program's name.
fn words(rt: &HostRuntime) -> io::Result<Vec<String>> {
    Ok(env::args(rt)?.skip(1).collect(rt.alloc())?)
}

/// Tells why there are no words: memory was refused, or one of them is no text. Answers the status.
fn refuse_words(rt: &HostRuntime, error: &io::Error) -> u8 {
    if error.kind() == io::ErrorKind::OutOfMemory {
        let _ = eprintln!(rt; "dcserve: no memory");
        return 3;
    }
    let _ = eprintln!(rt; "dcserve: an argument is no text");
    2
}

/// Tells why there are no options: help on standard output, all else on standard error. Answers the
/// status.
fn refuse(rt: &HostRuntime, fault: &OptionsFault) -> u8 {
    let status = fault.status();
    let _ = match fault {
        OptionsFault::Words(error) if status != 3 => error.print(rt),
        OptionsFault::Words(_) => eprintln!(rt; "dcserve: no memory"),
        OptionsFault::BadSize => eprintln!(rt; "dcserve: {fault}"),
    };
    status
}

/// What the words choose, or the status if they choose nothing.
fn chosen(rt: &HostRuntime) -> Result<Options, u8> {
    let words = words(rt).map_err(|error| refuse_words(rt, &error))?;
    options(rt.alloc(), &words).map_err(|fault| refuse(rt, &fault))
}

/// Tells the fault that a run ended with, and answers the status.
fn ended(rt: &HostRuntime, run: Result<(), ServeFault>) -> u8 {
    let Err(fault) = run else {
        return 0;
    };
    let _ = eprintln!(rt; "dcserve: {fault}");
    fault.status()
}

/// Serves, and reports how look-ups were answered if all was answered.
fn serve_counting<R: Threads + Wait + Sync + Eprint, I: Read, O: Write>(
    rt: &R,
    alloc: Global,
    input: &mut I,
    output: &mut O,
    options: Options,
) -> Result<(), ServeFault> {
    let stats = Stats::default();
    run(rt, alloc, input, output, options, &stats)?;
    let _ = eprintln!(rt; "{stats}");
    Ok(())
}

/// Serves as the options say.
fn serve<R: Threads + Wait + Sync + Eprint, I: Read, O: Write>(
    rt: &R,
    alloc: Global,
    input: &mut I,
    output: &mut O,
    options: &Options,
) -> Result<(), ServeFault> {
    if options.stats {
        return serve_counting(rt, alloc, input, output, *options);
    }
    run(rt, alloc, input, output, *options, &FreeGate)
}

fn main(rt: HostRuntime) -> ExitCode {
    let (mut input, mut output) = (rt.stdin(), rt.stdout());
    let status = match chosen(&rt) {
        Ok(options) => {
            let result = serve(&rt, rt.alloc(), &mut input, &mut output, &options);
            ended(&rt, result)
        }
        Err(status) => status,
    };
    ExitCode::from(status)
}
