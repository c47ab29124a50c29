//! Runs of the server over an input, and what the checker says of what they write.

ghost use Rattle.std.specs.Prelude.{◌≤◌};
ghost use Rattle.dc_names.specs.declared.limits.TheConstants.{MOST_INODES};

use dc_check::{PhasedVerdict, Stamp, Verdict, check, check_phases, record_of};
use dc_lang::{read_lines, serving_order};
use dc_serve::{FreeGate, Options, ServeFault, run};
use std::alloc::Global;
use std::sync::Wait;
use std::test::Fail;
use std::thread::Threads;

/// The sizes that most runs use.
pub const USUAL: Options = Options {
    buckets: 256,
    inodes: 65536,
    stats: false,
};

/// How many inodes may live in the records of `check`.
pub const INODES: u64 = 16;

/// What a run with these sizes answers and writes.
pub fn served<R: Threads + Wait + Sync>(
    rt: &R,
    alloc: Global,
    sizes: Options,
    input: &[u8],
) -> (Result<(), ServeFault>, Vec<u8>) {
    let mut output = Vec::new(alloc);
    let mut rest = input;
    let result = run(rt, alloc, &mut rest, &mut output, sizes, &FreeGate);
    (result, output)
}

/// The verdict on the stamps of an input, by its phases too.
pub fn phased_verdict(
    alloc: Global,
    inodes: u64,
    input: &[u8],
    stamps: &[Stamp],
) -> Result<PhasedVerdict, Fail>
    requires least { 1 ≤ inodes }
    requires most { inodes ≤ MOST_INODES }
{
    let lines = read_lines(alloc, input)?;
    let served = serving_order(alloc, &lines)?;
    let phases: Vec<u64> = served.iter().map(|one| one.phase).collect(alloc)?;
    if phases.len() != stamps.len() {
        return Err(Fail::from("another number of phases"));
    }
    Ok(check_phases(alloc, inodes, stamps, &phases)?)
}
