//! The checker of records, with an allocation refused.

ghost use Rattle.std.specs.Thread.{IsSync};

use crate::fault::Fault;
use crate::lines::Input;
use crate::probe::{Plan, told};
use crate::serving::{INODES, served};
use crate::told::Told;
use dc_check::{
    PhasedVerdict, RecordFault, Stamp, Verdict, check, check_phases, record_of, reply_due,
};
use dc_names::NoMemory;
use std::alloc::Global;
use std::sync::Wait;
use std::thread::Threads;

/// What the checker says of stamps: whether they are legal, or nothing if out of memory.
fn said(alloc: Global, stamps: &[Stamp], phases: Option<&[u64]>) -> Option<bool> {
    match phases {
        Some(phases) if phases.len() == stamps.len() => {
            match check_phases(alloc, INODES, stamps, phases) {
                Ok(verdict) => Some(verdict == PhasedVerdict::Legal),
                Err(_) => None,
            }
        }
        _ => match check(alloc, INODES, stamps) {
            Ok(verdict) => Some(verdict == Verdict::Legal),
            Err(_) => None,
        },
    }
}

/// Judges stamps with an allocation refused, and then once more.
fn judge(
    alloc: Global,
    plan: &Plan<'_>,
    stamps: &[Stamp],
    phases: Option<&[u64]>,
) -> Result<Told, Fault> {
    if plan.setup {
        return Ok(told(plan.place(alloc), true));
    }
    let first = said(alloc, stamps, phases);
    let place = plan.place(alloc);
    if first == Some(false) || said(alloc, stamps, phases) != Some(true) {
        return Ok(Told::Wrong("the verdict"));
    }
    Ok(told(place, first.is_some()))
}

/// Asks what is due at the last stamp with an allocation refused, and then once more.
fn ask_due(alloc: Global, plan: &Plan<'_>, stamps: &[Stamp]) -> Result<Told, Fault> {
    let last = stamps.last().ok_or(Fault::Words)?;
    if plan.setup {
        return Ok(told(plan.place(alloc), true));
    }
    let first = reply_due(alloc, INODES, stamps, last);
    let place = plan.place(alloc);
    let again = reply_due(alloc, INODES, stamps, last)?;
    let answered = match first {
        Ok(due) => {
            if due != again {
                return Ok(Told::Wrong("the reply that is due"));
            }
            true
        }
        Err(NoMemory) => false,
    };
    Ok(told(place, answered))
}

/// Reads a record with an allocation refused, and then once more.
fn read(
    alloc: Global,
    plan: &Plan<'_>,
    input: &[u8],
    output: &[u8],
    stamps: &[Stamp],
) -> Result<Told, Fault> {
    if plan.setup {
        return Ok(told(plan.place(alloc), true));
    }
    let first = record_of(alloc, input, output);
    let place = plan.place(alloc);
    let answered = match first {
        Ok(read) => {
            if read.as_slice() != stamps {
                return Ok(Told::Wrong("the record"));
            }
            true
        }
        Err(RecordFault::NoMemory) => false,
        Err(_) => return Ok(Told::Wrong("the fault")),
    };
    if record_of(alloc, input, output)?.as_slice() != stamps {
        return Ok(Told::Wrong("a later record"));
    }
    Ok(told(place, answered))
}

/// Makes a record of the input, and judges or reads it.
pub fn trial<R: Threads + Wait + Sync>(
    rt: &R,
    alloc: Global,
    plan: &Plan<'_>,
    input: &Input<'_>,
) -> Result<Told, Fault>
    requires sync { IsSync R.row }
{
    let output = served(rt, alloc, input.bytes)?;
    let stamps = record_of(alloc, input.bytes, &output)?;
    let mut phases = Vec::new(alloc);
    for _ in 0..stamps.len() {
        phases.push(0)?;
    }
    match plan.name {
        "record_of" => read(alloc, plan, input.bytes, &output, &stamps),
        "reply_due" => ask_due(alloc, plan, &stamps),
        "check_phases" => judge(alloc, plan, &stamps, Some(&phases)),
        _ => judge(alloc, plan, &stamps, None),
    }
}
