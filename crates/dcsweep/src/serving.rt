//! A whole run of the server, with an allocation refused.

ghost use Rattle.std.specs.Thread.{IsSync};

use crate::fault::Fault;
use crate::lines::Input;
use crate::probe::{Plan, told};
use crate::told::Told;
use dc_serve::{FreeGate, Options, ServeFault, run};
use std::alloc::Global;
use std::sync::Wait;
use std::thread::Threads;

/// How many inodes may live.
pub const INODES: u64 = 64;

const SIZES: Options = Options {
    buckets: 16,
    inodes: INODES,
    stats: false,
};

/// More bytes than are written for an input.
const ROOM: usize = 4096;

/// The line between two phases.
const SYNC: &[u8] = b"sync\n";

/// What is written for an input.
pub fn served<R: Threads + Wait + Sync>(
    rt: &R,
    alloc: Global,
    input: &[u8],
) -> Result<Vec<u8>, ServeFault>
    requires sync { IsSync R.row }
{
    let mut output = Vec::new(alloc);
    let mut rest = input;
    run(rt, alloc, &mut rest, &mut output, SIZES, &FreeGate)?;
    Ok(output)
}

/// Whether this was written for the first phases of an input, or for none.
fn is_front<R: Threads + Wait + Sync>(
    rt: &R,
    alloc: Global,
    input: &[u8],
    output: &[u8],
) -> Result<bool, ServeFault>
    requires sync { IsSync R.row }
{
    if output.is_empty() {
        return Ok(true);
    }
    for end in 0..input.len() {
        let Some((front, rest)) = input.split_at_checked(end) else {
            return Ok(false);
        };
        if rest.starts_with(SYNC) && served(rt, alloc, front)?.as_slice() == output {
            return Ok(true);
        }
    }
    Ok(false)
}

/// Serves an input with an allocation refused, and then once more. The writer has its room before.
pub fn trial<R: Threads + Wait + Sync>(
    rt: &R,
    alloc: Global,
    plan: &Plan<'_>,
    input: &Input<'_>,
) -> Result<Told, Fault>
    requires sync { IsSync R.row }
{
    let mut output = Vec::with_capacity(alloc, ROOM)?;
    if plan.setup {
        return Ok(told(plan.place(alloc), true));
    }
    let mut rest = input.bytes;
    let result = run(rt, alloc, &mut rest, &mut output, SIZES, &FreeGate);
    let place = plan.place(alloc);
    let whole = served(rt, alloc, input.bytes)?;
    let as_it_should = match result {
        Ok(()) => output == whole,
        Err(ServeFault::NoMemory) => is_front(rt, alloc, input.bytes, &output)?,
        Err(_) => false,
    };
    if !as_it_should {
        return Ok(Told::Wrong("what was written"));
    }
    Ok(told(place, result.is_ok()))
}
