//! A trace that is read, explained and written, with an allocation refused.

use crate::probe::{Plan, told};
use crate::serving::INODES;
use crate::told::Told;
use dc_trace::{
    Errors, Outcome, Rules, Timed, TraceFault, begun_before, find_order, read_trace, stretch_of,
    write_record,
};
use std::alloc::Global;

/// Calls with their times. The rename that ended first comes last, so that a step is undone.
const TRACE: &[u8] = b"\
10 20 0 mkdir /d = ok 7
30 80 0 create /d/f = ok
40 90 1 look /d/f = is 9 file
100 110 0 symlink t /a = ok 4
120 130 0 create /b = ok 5
140 180 0 rename /a /c = ok
140 190 1 rename /b /c = ok
200 210 0 llook /c = is 4 link
";

/// The commands, and the replies with points that explain them.
const COMMANDS: &[u8] = b"\
0 mkdir /d
0 create /d/f
0 symlink t /a
0 create /b
0 rename /a /c
0 llook /c
1 look /d/f
1 rename /b /c
";

const REPLIES: &[u8] = b"\
0 ok 2 @0
0 ok 3 @1
0 ok 4 @2
0 ok 5 @3
0 ok @5
0 is 4 link @6
1 is 3 file @2
1 ok @4
";

/// More states than the search visits, and more memory than they take.
const RULES: Rules = Rules {
    inodes: INODES,
    errors: Errors::Exact,
    states: 100,
    memory: 1 << 20,
};

/// Whether the first call of the trace is all that began before it ended, and all that it rests on.
fn is_alone(alloc: Global, lanes: &[Vec<Timed>]) -> Result<bool, TraceFault> {
    let begun = begun_before(alloc, lanes, 1)?;
    let stretch = stretch_of(alloc, RULES, lanes, 1, &[])?;
    let first: [u64; 1] = [1];
    Ok(begun.as_slice() == first.as_slice() && stretch.as_slice() == first.as_slice())
}

/// The commands and the replies of the trace.
fn explained(alloc: Global) -> Result<(Vec<u8>, Vec<u8>), TraceFault> {
    let lanes = read_trace(alloc, TRACE)?;
    if !is_alone(alloc, &lanes)? {
        return Err(TraceFault::BadLine(1));
    }
    match find_order(alloc, RULES, &lanes)? {
        Outcome::Order(order) => Ok(write_record(alloc, RULES, lanes, &order)?),
        Outcome::Stuck(line, _) | Outcome::Undecided(line, _) => Err(TraceFault::BadLine(line)),
    }
}

/// Whether these are the texts that are due.
fn are_due(texts: &(Vec<u8>, Vec<u8>)) -> bool {
    texts.0.as_slice() == COMMANDS && texts.1.as_slice() == REPLIES
}

/// Explains the trace with an allocation refused, and then once more.
pub fn trial(alloc: Global, plan: &Plan<'_>) -> Told {
    if plan.setup {
        return told(plan.place(alloc), true);
    }
    let first = explained(alloc);
    let place = plan.place(alloc);
    let answered = match &first {
        Ok(texts) => {
            if !are_due(texts) {
                return Told::Wrong("the record");
            }
            true
        }
        Err(TraceFault::NoMemory) => false,
        Err(_) => return Told::Wrong("the fault"),
    };
    match explained(alloc) {
        Ok(texts) if are_due(&texts) => told(place, answered),
        _ => Told::Wrong("a later record"),
    }
}
