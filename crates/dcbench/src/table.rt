//! The tasks of the command line: each prints its table.

ghost use Rattle.std.specs.Thread.{IsSync};

use crate::answers::Answers;
use crate::drawing::draw;
use crate::fault::Fault;
use crate::held::HOLD_HEAD;
use crate::holding::hold_row;
use crate::order::{ordered, texts_of};
use crate::racing::race_row;
use crate::report::{CHANGE_HEAD, LOOK_HEAD, RACE_HEAD, Row, WAIT_HEAD};
use crate::rows::{Plan, change_row, look_row};
use crate::tree::{asked_in, lines_in, parsed};
use crate::waiting::wait_rows;
use crate::work::{
    ChangeTask, HoldTask, LookTask, Miss, RaceTask, Shape, Sort, Style, Taker, Task, WaitTask, Work,
};
use std::alloc::{AllocError, Global};
use std::fs;
use std::io::Write;
use std::rt::{Clock, Files};
use std::sync::Wait;
use std::thread::Threads;
use std::time::Duration;

/// Prints a line.
fn say<R: Print>(rt: &R, line: &str) -> Result<(), Fault> {
    println!(rt; "{line}")?;
    Ok(())
}

/// Tells a row, as text or as a line of JSON.
fn tell<R: Print, T: Row>(rt: &R, alloc: Global, row: &T, json: bool) -> Result<(), Fault> {
    let line = if json {
        row.json(alloc)?
    } else {
        format!(in alloc; "{row}")?
    };
    say(rt, &line)
}

/// The text of the tree: that of a file, or one that is drawn.
fn text_of<R: Files + AllocGlobal>(
    rt: &R,
    alloc: Global,
    task: &LookTask<'_>,
) -> Result<Vec<u8>, Fault> {
    match task.tree {
        Some(path) => fs::read(rt, path).map_err(|_| Fault::Unread),
        None => Ok(draw(alloc, task.shape)?),
    }
}

/// Times rows of look-ups by these numbers of threads. Answers how they were answered, here and below.
fn look_rows<R: Threads + Wait + Clock + Sync + Print>(
    rt: &R,
    alloc: Global,
    plan: &Plan<'_>,
    json: bool,
    threads: &[u64],
) -> Result<Answers, Fault>
    requires { IsSync R.row }
{
    let mut answers = Answers::default();
    for threads in threads {
        let row = look_row(rt, alloc, plan, *threads)?;
        tell(rt, alloc, &row, json)?;
        answers.take_in(&row.answers());
    }
    Ok(answers)
}

/// Times look-ups of these files of a tree.
fn look_files<R: Threads + Wait + Clock + Sync + Print>(
    rt: &R,
    alloc: Global,
    task: &LookTask<'_>,
    lines: &[&[u8]],
    files: &[&[u8]],
    threads: &[u64],
) -> Result<Answers, Fault>
    requires { IsSync R.row }
{
    let texts = texts_of(alloc, task.shape, files)?;
    let paths = parsed(alloc, &texts)?;
    let order = ordered(alloc, task.shape.work, &paths)?;
    let plan = Plan {
        shape: Shape {
            hot: files.len() as u64,
            ..task.shape
        },
        time: task.time,
        lines,
        files,
        paths: &paths,
        order: &order,
    };
    look_rows(rt, alloc, &plan, task.json, threads)
}

/// Times look-ups by these numbers of threads.
fn look_by<R: Threads + Wait + Clock + Sync + Print + Files + AllocGlobal>(
    rt: &R,
    alloc: Global,
    task: &LookTask<'_>,
    threads: &[u64],
) -> Result<Answers, Fault>
    requires { IsSync R.row }
{
    let text = text_of(rt, alloc, task)?;
    let lines = lines_in(alloc, &text)?;
    let files = asked_in(alloc, &lines)?;
    look_files(rt, alloc, task, &lines, &files, threads)
}

/// The numbers from 1 to this.
fn up_to(alloc: Global, most: u64) -> Result<Vec<u64>, AllocError> {
    let mut all = Vec::new(alloc);
    for number in 0..most {
        all.push(number.saturating_add(1))?;
    }
    Ok(all)
}

/// Times changes by these numbers of threads.
fn change_by<R: Threads + Wait + Clock + Sync + Print>(
    rt: &R,
    alloc: Global,
    task: &ChangeTask,
    threads: &[u64],
) -> Result<(), Fault>
    requires { IsSync R.row }
{
    for threads in threads {
        let row = change_row(rt, alloc, task.time, *threads)?;
        tell(rt, alloc, &row, task.json)?;
    }
    Ok(())
}

/// Times calls beside 1 to this many threads that hold the lock.
fn waits<R: Threads + Wait + Clock + Sync + Print>(
    rt: &R,
    alloc: Global,
    task: &WaitTask,
) -> Result<(), Fault>
    requires { IsSync R.row }
{
    head(rt, WAIT_HEAD, task.json)?;
    for hogs in 0..task.hogs {
        let (changes, misses) = wait_rows(rt, alloc, task, hogs.saturating_add(1))?;
        tell(rt, alloc, &changes, task.json)?;
        tell(rt, alloc, &misses, task.json)?;
    }
    Ok(())
}

/// Times the holds of each kind of call by these numbers of threads.
fn holds_by<R: Threads + Wait + Clock + Sync + Print>(
    rt: &R,
    alloc: Global,
    task: &HoldTask,
    taker: Taker,
    threads: &[u64],
) -> Result<(), Fault>
    requires { IsSync R.row }
{
    for threads in threads {
        let row = hold_row(rt, alloc, task.time, taker, *threads)?;
        tell(rt, alloc, &row, task.json)?;
    }
    Ok(())
}

/// Times the holds of all kinds of calls by these numbers of threads.
fn holds<R: Threads + Wait + Clock + Sync + Print>(
    rt: &R,
    alloc: Global,
    task: &HoldTask,
    threads: &[u64],
) -> Result<(), Fault>
    requires { IsSync R.row }
{
    head(rt, HOLD_HEAD, task.json)?;
    for taker in Taker::ALL {
        holds_by(rt, alloc, task, taker, threads)?;
    }
    Ok(())
}

/// Tells a race in its style.
fn race<R: Threads + Wait + Clock + Sync + Print>(
    rt: &R,
    alloc: Global,
    task: &RaceTask,
) -> Result<(), Fault>
    requires { IsSync R.row }
{
    let row = race_row(rt, alloc, task)?;
    match task.style {
        Style::WrongOnly => {
            println!(rt; "wrong answers: {}", row.tally.wrong)?;
            Ok(())
        }
        style => tell(rt, alloc, &row, matches!(style, Style::Json)),
    }
}

/// Races of both kinds, each with 1 and 16 directories in between.
fn races<R: Threads + Wait + Clock + Sync + Print>(rt: &R, alloc: Global) -> Result<(), Fault>
    requires { IsSync R.row }
{
    say(rt, RACE_HEAD)?;
    for (sort, depth) in [
        (Sort::Rename, 1),
        (Sort::Rename, 16),
        (Sort::Exchange, 1),
        (Sort::Exchange, 16),
    ] {
        let task = RaceTask {
            sort,
            depth,
            looks: 100_000,
            threads: 2,
            style: Style::Table,
        };
        race(rt, alloc, &task)?;
    }
    Ok(())
}

/// Look-ups of each kind in trees of one depth, by one thread and by four.
fn looks_at<R: Threads + Wait + Clock + Sync + Print + Files + AllocGlobal>(
    rt: &R,
    alloc: Global,
    depth: u64,
) -> Result<Answers, Fault>
    requires { IsSync R.row }
{
    let mut answers = Answers::default();
    for work in Work::ALL {
        let shape = Shape {
            work,
            depth,
            hot: 1_000,
            buckets: 1_024,
            miss: Miss::NameByName,
        };
        let task = LookTask {
            threads: 4,
            time: Duration::from_millis(BRIEFLY),
            shape,
            tree: None,
            json: false,
        };
        answers.take_in(&look_by(rt, alloc, &task, &[1, 4])?);
    }
    Ok(answers)
}

/// How many milliseconds each row of the table of everything is timed.
const BRIEFLY: u64 = 300;

/// Tells on standard error how look-ups were answered.
fn explain<R: Eprint>(rt: &R, answers: &Answers) {
    let _ = eprintln!(rt; "{answers}");
}

/// The table of everything.
fn all<R: Threads + Wait + Clock + Sync + Print + Eprint + Files + AllocGlobal>(
    rt: &R,
    alloc: Global,
) -> Result<(), Fault>
    requires { IsSync R.row }
{
    say(rt, LOOK_HEAD)?;
    let mut answers = Answers::default();
    for depth in [1, 4, 8] {
        answers.take_in(&looks_at(rt, alloc, depth)?);
    }
    say(rt, CHANGE_HEAD)?;
    let task = ChangeTask {
        threads: 4,
        time: Duration::from_millis(BRIEFLY),
        json: false,
    };
    change_by(rt, alloc, &task, &[1, 2, 4])?;
    let task = WaitTask {
        hogs: 3,
        time: Duration::from_secs(1),
        hold: Duration::from_millis(5),
        json: false,
    };
    waits(rt, alloc, &task)?;
    let task = HoldTask {
        threads: 4,
        time: Duration::from_millis(BRIEFLY),
        json: false,
    };
    holds(rt, alloc, &task, &[1, 4])?;
    races(rt, alloc)?;
    explain(rt, &answers);
    Ok(())
}

/// Prints a head unless lines of JSON are wanted.
fn head<R: Print>(rt: &R, line: &str, json: bool) -> Result<(), Fault> {
    if json { Ok(()) } else { say(rt, line) }
}

/// Writes the lines of a tree that is drawn.
fn tree<R: Print>(rt: &R, alloc: Global, shape: Shape) -> Result<(), Fault> {
    let text = draw(alloc, shape)?;
    std::io::writer(rt).write_all(&text)?;
    Ok(())
}

/// Times look-ups by up to this many threads.
fn look<R: Threads + Wait + Clock + Sync + Print + Eprint + Files + AllocGlobal>(
    rt: &R,
    alloc: Global,
    task: &LookTask<'_>,
) -> Result<(), Fault>
    requires { IsSync R.row }
{
    head(rt, LOOK_HEAD, task.json)?;
    let answers = look_by(rt, alloc, task, &up_to(alloc, task.threads)?)?;
    // A line of JSON has them.
    if !task.json {
        explain(rt, &answers);
    }
    Ok(())
}

/// Does a task.
pub fn perform<R: Threads + Wait + Clock + Sync + Print + Eprint + Files + AllocGlobal>(
    rt: &R,
    alloc: Global,
    task: &Task<'_>,
) -> Result<(), Fault>
    requires { IsSync R.row }
{
    match task {
        Task::All => all(rt, alloc),
        Task::Look(task) => look(rt, alloc, task),
        Task::Change(change) => {
            head(rt, CHANGE_HEAD, change.json)?;
            change_by(rt, alloc, change, &up_to(alloc, change.threads)?)
        }
        Task::Waits(task) => waits(rt, alloc, task),
        Task::Holds(task) => holds(rt, alloc, task, &up_to(alloc, task.threads)?),
        Task::Race(task) => {
            head(rt, RACE_HEAD, !matches!(task.style, Style::Table))?;
            race(rt, alloc, task)
        }
        Task::Tree(shape) => tree(rt, alloc, *shape),
    }
}
