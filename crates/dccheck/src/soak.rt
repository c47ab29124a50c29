//! The soak: one round after another, until the time is over or something is wrong.

ghost use Rattle.std.specs.Thread.{IsSync};

use crate::command_line::{Soak, soak_in};
use crate::faults::Fault;
use crate::table::Report;
use dc_soak::{Round, Wrong};
use std::alloc::Global;
use std::rt::Clock;
use std::sync::Wait;
use std::thread::Threads;
use std::time::Instant;

/// What is said if nothing is wrong.
const LEGAL: &str = "every record is legal, and each tree is the one that its changes make";

/// Says what is wrong about a round.
fn tell_wrong<R: Print>(rt: &R, round: &Round, calls: u64, wrong: &Wrong) -> Result<(), Fault> {
    let (seed, threads, buckets) = (round.seed, round.threads, round.buckets());
    println!(rt;
        "--seed {seed} --calls {calls}, {threads} threads on {buckets} buckets: {wrong}"
    ).map_err(|_| Fault::Write)
}

/// Writes what was counted.
fn tell<R: Print>(rt: &R, report: &Report, task: &Soak) -> Result<(), Fault> {
    if task.brief {
        return Ok(());
    }
    print!(rt; "{report}").map_err(|_| Fault::Write)
}

/// Plays a round, and says what is wrong about it, if anything is.
fn play<R: Threads + Wait + Clock + Sync + Print>(
    rt: &R,
    alloc: Global,
    task: &Soak,
    round: &Round,
    report: &mut Report,
) -> Result<(), Fault>
    requires { IsSync R.row }
{
    let played = round.play(rt, alloc)?;
    report.take_in(round.place, &played.tally);
    if let Some(wrong) = &played.wrong {
        tell(rt, report, task)?;
        tell_wrong(rt, round, task.calls, wrong)?;
        return Err(Fault::Wrong);
    }
    Ok(())
}

/// Plays rounds until the time is over. The first is always played.
fn play_all<R: Threads + Wait + Clock + Sync + Print>(
    rt: &R,
    alloc: Global,
    task: &Soak,
    report: &mut Report,
) -> Result<(), Fault>
    requires { IsSync R.row }
{
    let begin = Instant::now(rt).map_err(|_| Fault::NoClock)?;
    for number in 0..u64::MAX {
        let round = Round::of(task.seed.wrapping_add(number), task.calls);
        play(rt, alloc, task, &round, report)?;
        let took = begin.elapsed(rt).map_err(|_| Fault::NoClock)?;
        if took >= task.time {
            break;
        }
    }
    Ok(())
}

/// Plays rounds, and says what they come to. `Wrong` if a cache was wrong, which has been said then.
fn soak<R: Threads + Wait + Clock + Sync + Print>(
    rt: &R,
    alloc: Global,
    task: &Soak,
) -> Result<(), Fault>
    requires { IsSync R.row }
{
    let mut report = Report::default();
    play_all(rt, alloc, task, &mut report)?;
    tell(rt, &report, task)?;
    println!(rt; "{LEGAL}").map_err(|_| Fault::Write)
}

/// Does what the words after the first, which is `soak`, ask for. Answers the status.
pub fn run<R: Threads + Wait + Clock + Sync + Print>(
    rt: &R,
    alloc: Global,
    words: &[String],
) -> Result<u8, Fault>
    requires { IsSync R.row }
{
    let task = soak_in(alloc, words.get(1..).unwrap_or(&[]))?;
    soak(rt, alloc, &task)?;
    Ok(0)
}
