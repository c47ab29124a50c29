//! Lists of events, done or refused.

use dc_core::{Act, Core, Event, MakeFault, Refused};
use dc_plain::{Call, Flags, Follow, Reply};
use dc_row::ROW_WORDS;
use std::alloc::Global;
use std::test::Fail;

mod refusals;
mod schedule;

/// The first words of a row after its count. The others are zero.
type Words = [u64; 4];

const NOTHING: Words = [0; 4];

const A_IS_2: Words = [16_777_473, 1, 2, 97];

const A_IS_ABSENT: Words = [257, 1, 0, 97];

const D_IS_3: Words = [16_777_473, 2, 3, 100];

const D_IS_ABSENT: Words = [257, 2, 0, 100];

const F_IS_4: Words = [33_554_689, 3, 4, 102];

/// What is done with a core, and how it goes, or what is seen of it. An actor comes first.
#[derive(Clone, Copy)]
enum Step {
    /// It does an act.
    Do(u64, Act<'static>),
    /// It is refused an act, and why.
    Not(u64, Act<'static>, Refused),
    /// It makes a change that no row speaks of.
    Change(u64, Call<'static>),
    /// It makes a change of which one row speaks, and gives that row other words.
    ChangeRow(u64, Call<'static>, u64, Words),
    /// Without the lock it gives a row other words.
    Fill(u64, u64, Words),
    /// It notes a row and reads all its words.
    Note(u64, u64),
    /// The last record is its own, a refusal with a number, or a new inode with one, at a point.
    Refusal(u64, u64, u64),
    Made(u64, u64, u64),
    /// A row's count.
    Count(u64, u64),
    /// How many records there are, and the clock.
    Ended(usize, u64),
}

/// An actor does one act.
fn does(core: &mut Core, alloc: Global, actor: u64, act: Act) -> Result<(), Refused> {
    core.step(alloc, Event { actor, act })
}

/// An actor does these acts, up to the first that is refused.
fn act(core: &mut Core, alloc: Global, actor: u64, acts: &[Act]) -> Result<(), Refused> {
    for act in acts {
        does(core, alloc, actor, *act)?;
    }
    Ok(())
}

/// The holder writes a shut row and opens it.
fn write(
    core: &mut Core,
    alloc: Global,
    actor: u64,
    row: u64,
    words: &Words,
) -> Result<(), Refused> {
    for i in 1..ROW_WORDS as u64 {
        let word = words.get(i as usize - 1).copied().unwrap_or(0);
        does(core, alloc, actor, Act::Write(row, i, word))?;
    }
    does(core, alloc, actor, Act::Open(row))
}

/// An actor without the lock gives a row other words.
fn fill(
    core: &mut Core,
    alloc: Global,
    actor: u64,
    row: u64,
    words: &Words,
) -> Result<(), Refused> {
    act(core, alloc, actor, &[Act::Take, Act::Shut(row)])?;
    write(core, alloc, actor, row, words)?;
    does(core, alloc, actor, Act::Give(false))
}

/// An actor makes a change that no row speaks of.
fn change(core: &mut Core, alloc: Global, actor: u64, call: Call) -> Result<(), Refused> {
    let acts = [Act::Begin(call), Act::Take, Act::Commit, Act::Give(false)];
    act(core, alloc, actor, &acts)
}

/// An actor makes a change of which one row speaks, and gives that row other words.
fn change_row(
    core: &mut Core,
    alloc: Global,
    actor: u64,
    call: Call,
    row: u64,
    words: &Words,
) -> Result<(), Refused> {
    let acts = [Act::Begin(call), Act::Take, Act::Shut(row), Act::Commit];
    act(core, alloc, actor, &acts)?;
    write(core, alloc, actor, row, words)?;
    does(core, alloc, actor, Act::Give(false))
}

/// An actor notes a row and reads all its words.
fn note(core: &mut Core, alloc: Global, actor: u64, row: u64) -> Result<(), Refused> {
    does(core, alloc, actor, Act::Note(row))?;
    act(core, alloc, actor, &[Act::Read; ROW_WORDS - 1])
}

/// The last record, if its actor, its reply and its point are these.
fn is_last(core: &Core, actor: u64, reply: &Reply, at: u64) -> bool {
    match core.finished().last() {
        Some(last) => last.actor == actor && last.reply == *reply && last.at == at,
        None => false,
    }
}

/// Whether a step goes as it should.
fn goes(core: &mut Core, alloc: Global, it: &Step) -> bool {
    match it {
        Step::Do(actor, act) => does(core, alloc, *actor, *act).is_ok(),
        Step::Not(actor, act, why) => does(core, alloc, *actor, *act) == Err(*why),
        Step::Change(actor, call) => change(core, alloc, *actor, *call).is_ok(),
        Step::ChangeRow(actor, call, row, words) => {
            change_row(core, alloc, *actor, *call, *row, words).is_ok()
        }
        Step::Fill(actor, row, words) => fill(core, alloc, *actor, *row, words).is_ok(),
        Step::Note(actor, row) => note(core, alloc, *actor, *row).is_ok(),
        Step::Refusal(actor, number, at) => is_last(core, *actor, &Reply::Refused(*number), *at),
        Step::Made(actor, number, at) => is_last(core, *actor, &Reply::Done(*number), *at),
        Step::Count(row, count) => core.count(*row) == *count,
        Step::Ended(records, clock) => core.finished().len() == *records && core.clock() == *clock,
    }
}

/// Takes the steps. Answers which one, counted from 0, went otherwise, or `None` if each went as it should.
fn first_other(core: &mut Core, alloc: Global, steps: &[Step]) -> Option<usize> {
    for (i, it) in steps.iter().enumerate() {
        if !goes(core, alloc, it) {
            return Some(i);
        }
    }
    None
}

/// Takes the steps of two lists on a new core of two actors, as `first_other` does.
fn play_two(alloc: Global, first: &[Step], then: &[Step]) -> Result<Option<usize>, MakeFault> {
    let mut core = Core::new(alloc, 1, 2, 16)?;
    if let Some(other) = first_other(&mut core, alloc, first) {
        return Ok(Some(other));
    }
    Ok(first_other(&mut core, alloc, then))
}

const MAKE_A: Call<'static> = Call::Mkdir {
    base: 1,
    path: b"/a",
};

const LOOK_A: Call<'static> = Call::Look {
    base: 1,
    path: b"/a",
    follow: Follow::Yes,
};

/// A rename without flags, which no constant can ask a function for.
const NO_FLAGS: Flags = Flags {
    no_replace: false,
    exchange: false,
};

/// Actor 1 makes `/a` and `/a/d`, and rows 0 and 1 say so. Actor 0 begins to look for `/a/d/f` and
/// reads both.
static HALF_WALKED: [Step; 7] = [
    Step::Change(1, MAKE_A),
    Step::Change(
        1,
        Call::Mkdir {
            base: 1,
            path: b"/a/d",
        },
    ),
    Step::Fill(1, 0, A_IS_2),
    Step::Fill(1, 1, D_IS_3),
    Step::Do(
        0,
        Act::Begin(Call::Look {
            base: 1,
            path: b"/a/d/f",
            follow: Follow::Yes,
        }),
    ),
    Step::Note(0, 0),
    Step::Note(0, 1),
];

/// The name that is asked for stood only in a directory that had another name by then.
static NEVER_WAS: [Step; 16] = [
    Step::Count(0, 2),
    Step::Count(1, 2),
    Step::ChangeRow(
        1,
        Call::Rename {
            base: 1,
            old: b"/a/d",
            new: b"/b",
            flags: NO_FLAGS,
        },
        1,
        D_IS_ABSENT,
    ),
    Step::Change(
        1,
        Call::Create {
            base: 1,
            path: b"/b/f",
        },
    ),
    Step::Fill(1, 2, F_IS_4),
    Step::Note(0, 2),
    Step::Do(0, Act::Pivot),
    Step::Do(0, Act::Check(0)),
    Step::Not(0, Act::Check(1), Refused::Changed(1, 2, 4)),
    Step::Do(0, Act::Again),
    Step::Note(0, 0),
    Step::Note(0, 1),
    Step::Do(0, Act::Pivot),
    Step::Do(0, Act::Check(0)),
    Step::Do(0, Act::Check(1)),
    Step::Refusal(0, 2, 4),
];

/// A body that checks each parent as it goes would pass the row before this one, and fail here.
static GRANDPARENT: [Step; 9] = [
    Step::ChangeRow(
        1,
        Call::Rename {
            base: 1,
            old: b"/a",
            new: b"/b",
            flags: NO_FLAGS,
        },
        0,
        A_IS_ABSENT,
    ),
    Step::Change(
        1,
        Call::Create {
            base: 1,
            path: b"/b/d/f",
        },
    ),
    Step::Fill(1, 2, F_IS_4),
    Step::Note(0, 2),
    Step::Do(0, Act::Pivot),
    Step::Not(0, Act::Check(0), Refused::Changed(0, 2, 4)),
    Step::Do(0, Act::Check(1)),
    Step::Do(0, Act::Check(2)),
    Step::Ended(4, 4),
];

static READ_ONCE: [Step; 6] = [
    Step::Change(1, MAKE_A),
    Step::Fill(1, 0, A_IS_2),
    Step::Count(0, 2),
    Step::Do(0, Act::Begin(LOOK_A)),
    Step::Note(0, 0),
    Step::Do(0, Act::Pivot),
];

static REFILLED: [Step; 5] = [
    Step::Fill(1, 0, NOTHING),
    Step::Count(0, 4),
    Step::Fill(1, 0, A_IS_2),
    Step::Not(0, Act::Check(0), Refused::Changed(0, 2, 6)),
    Step::Ended(1, 1),
];

/// Two lists of steps, taken one after the other on a new core of two actors, by what they show.
fn plays() -> [(&'static str, &'static [Step], &'static [Step]); 3] {
    [
        ("a path that never was", &HALF_WALKED, &NEVER_WAS),
        (
            "a grandparent is checked after the pivot",
            &HALF_WALKED,
            &GRANDPARENT,
        ),
        ("a row that was refilled is another", &READ_ONCE, &REFILLED),
    ]
}

#[test]
fn lists_come_to_what_they_should(rt: HostRuntime) -> Result<(), Fail> {
    for (what, first, then) in plays().iter() {
        let other = play_two(rt.alloc(), first, then)?;
        assert!(rt; other.is_none(), "{what}: {other:?}");
    }
    Ok(())
}

/// The first events of a core of one actor, and the change that they make.
static FIRST: [Event<'static>; 7] = [
    Event {
        actor: 0,
        act: Act::Begin(Call::Mkdir {
            base: 1,
            path: b"/x",
        }),
    },
    Event {
        actor: 0,
        act: Act::Take,
    },
    Event {
        actor: 0,
        act: Act::Shut(0),
    },
    Event {
        actor: 0,
        act: Act::Write(0, 1, 257),
    },
    Event {
        actor: 0,
        act: Act::Write(0, 2, 1),
    },
    Event {
        actor: 0,
        act: Act::Write(0, 4, 120),
    },
    Event {
        actor: 0,
        act: Act::Open(0),
    },
];

static TOUCHED: [Step; 12] = [
    Step::Not(0, Act::Commit, Refused::Touched(0)),
    Step::Do(0, Act::Shut(0)),
    Step::Do(0, Act::Commit),
    Step::Made(0, 2, 0),
    Step::Not(0, Act::Open(0), Refused::Untrue),
    Step::Do(0, Act::Write(0, 1, 16_777_473)),
    Step::Do(0, Act::Write(0, 3, 2)),
    Step::Do(0, Act::Open(0)),
    Step::Not(0, Act::Give(true), Refused::NoCall),
    Step::Do(0, Act::Give(false)),
    Step::Count(0, 4),
    Step::Ended(1, 1),
];

#[test]
fn a_change_shuts_what_it_touches(rt: HostRuntime) -> Result<(), Fail> {
    let mut core = Core::new(rt.alloc(), 1, 1, 16)?;
    assert!(rt; core.run(rt.alloc(), &FIRST).is_ok());
    assert!(rt; first_other(&mut core, rt.alloc(), &TOUCHED).is_none());
    Ok(())
}

/// What the first events come to from a place on.
fn first_from(core: &mut Core, alloc: Global, place: usize) -> Result<(), (u64, Refused)> {
    core.run(alloc, FIRST.get(place..).unwrap_or(&FIRST))
}

/// Places of the first events, one after the other, and what they come to from there on.
static STOPS: [(usize, Result<(), (u64, Refused)>); 4] = [
    (0, Ok(())),
    (0, Err((0, Refused::Holder))),
    (2, Ok(())),
    (3, Err((0, Refused::Even))),
];

/// Whether the events come to that from each of the places.
fn stop_so(core: &mut Core, alloc: Global) -> bool {
    for (place, want) in STOPS.iter() {
        if first_from(core, alloc, *place) != *want {
            return false;
        }
    }
    true
}

#[test]
fn a_list_stops_at_the_first_refusal(rt: HostRuntime) -> Result<(), Fail> {
    let mut core = Core::new(rt.alloc(), 1, 1, 16)?;
    assert!(rt; stop_so(&mut core, rt.alloc()));
    assert!(rt; core.rows() == 4 && core.count(0) == 4);
    assert!(rt; core.count(4) == 0 && core.count(u64::MAX) == 0);
    Ok(())
}

/// Buckets, actors and inodes, and how many rows such a core has, if it can be made.
static SIZES: [(u64, u64, u64, Result<u64, MakeFault>); 7] = [
    (1, 0, 1, Ok(4)),
    (1024, 3, 1048576, Ok(4096)),
    (0, 1, 16, Err(MakeFault::BadSize)),
    (3, 1, 16, Err(MakeFault::BadSize)),
    (2048, 1, 16, Err(MakeFault::BadSize)),
    (1, 1, 0, Err(MakeFault::BadSize)),
    (1, 1, 1048577, Err(MakeFault::BadSize)),
];

/// How many rows such a core has.
fn made(alloc: Global, buckets: u64, actors: u64, max_inodes: u64) -> Result<u64, MakeFault> {
    let core = Core::new(alloc, buckets, actors, max_inodes)?;
    Ok(core.rows())
}

#[test]
fn sizes_have_bounds(rt: HostRuntime) {
    for (buckets, actors, max_inodes, want) in SIZES.iter() {
        let found = made(rt.alloc(), *buckets, *actors, *max_inodes);
        assert!(rt; found == *want, "{buckets} {actors} {max_inodes}");
    }
}
