//! The core of events.

use crate::fault::Fault;
use crate::probe::{Plan, told};
use crate::told::Told;
use dc_core::{Act, Core, Event, Refused};
use dc_plain::{Call, Follow};
use dc_row::ROW_WORDS;
use std::alloc::Global;

/// Does each event. One that wanted memory is done again; `None` if it is refused otherwise.
fn do_each(alloc: Global, core: &mut Core, events: &[Event]) -> Option<bool> {
    let mut answered = true;
    for event in events {
        match core.step(alloc, *event) {
            Ok(()) => {}
            Err(Refused::NoMemory) => {
                answered = false;
                if core.step(alloc, *event).is_err() {
                    return None;
                }
            }
            Err(_) => return None,
        }
    }
    Some(answered)
}

/// Does all events by one call, and by a second one from where the first wanted memory.
fn do_all(alloc: Global, core: &mut Core, events: &[Event]) -> Option<bool> {
    match core.run(alloc, events) {
        Ok(()) => Some(true),
        Err((place, Refused::NoMemory)) => {
            let rest = events.get(place as usize..)?;
            match core.run(alloc, rest) {
                Ok(()) => Some(false),
                Err(_) => None,
            }
        }
        Err(_) => None,
    }
}

/// Whether both cores came to the same.
fn are_same(one: &Core, other: &Core) -> bool {
    one.clock() == other.clock()
        && one.finished() == other.finished()
        && (0..one.rows()).all(|row| one.count(row) == other.count(row))
}

/// The directory that is made and looked for.
const PATH: &[u8] = b"/x";

/// A change, a row that is filled with what it made, and a look-up that notes the row.
const FILL: [Act<'static>; 14] = [
    Act::Begin(Call::Mkdir {
        base: 1,
        path: PATH,
    }),
    Act::Take,
    Act::Commit,
    Act::Give(false),
    Act::Take,
    Act::Shut(0),
    Act::Write(0, 1, 16_777_473),
    Act::Write(0, 2, 1),
    Act::Write(0, 3, 2),
    Act::Write(0, 4, 120),
    Act::Open(0),
    Act::Give(false),
    Act::Begin(Call::Look {
        base: 1,
        path: PATH,
        follow: Follow::Yes,
    }),
    Act::Note(0),
];

/// The end of the look-up, once the row is read, and a count under the lock.
const END: [Act<'static>; 5] = [
    Act::Pivot,
    Act::Check(0),
    Act::Begin(Call::Stat {
        base: 1,
        path: PATH,
    }),
    Act::Take,
    Act::Give(true),
];

/// The events of one actor that takes these acts.
fn events(alloc: Global) -> Result<Vec<Event<'static>>, Fault> {
    let mut events = Vec::with_capacity(alloc, FILL.len() + ROW_WORDS - 1 + END.len())?;
    for act in FILL {
        events.push(Event { actor: 0, act })?;
    }
    for _ in 1..ROW_WORDS {
        events.push(Event {
            actor: 0,
            act: Act::Read,
        })?;
    }
    for act in END {
        events.push(Event { actor: 0, act })?;
    }
    Ok(events)
}

/// Does all events. `None` if one is refused otherwise than out of memory.
fn do_events(alloc: Global, core: &mut Core, events: &[Event], by_one_call: bool) -> Option<bool> {
    if by_one_call {
        do_all(alloc, core, events)
    } else {
        do_each(alloc, core, events)
    }
}

/// Whether a new core comes to the same by these events.
fn is_as_anew(
    alloc: Global,
    core: &Core,
    events: &[Event],
    by_one_call: bool,
) -> Result<bool, Fault> {
    let mut twin = Core::new(alloc, 1, 1, 16)?;
    let done = do_events(alloc, &mut twin, events, by_one_call);
    Ok(done.is_some() && are_same(core, &twin))
}

/// Does a list of events, an allocation of which is refused, and compares what it comes to.
pub fn trial(alloc: Global, plan: &Plan<'_>) -> Result<Told, Fault> {
    let events = events(alloc)?;
    let mut core = Core::new(alloc, 1, 1, 16)?;
    if plan.setup {
        return Ok(told(plan.place(alloc), true));
    }
    let by_one_call = plan.name == "core_run";
    let Some(answered) = do_events(alloc, &mut core, &events, by_one_call) else {
        return Ok(Told::Wrong("an event is refused"));
    };
    let place = plan.place(alloc);
    if !is_as_anew(alloc, &core, &events, by_one_call)? {
        return Ok(Told::Wrong("the core"));
    }
    Ok(told(place, answered))
}
