//! Each act refused for each of its reasons, and by the first of them if several hold. The reasons
//! of the last count and the last clock are left out, since no list of events comes so far.
use super::{A_IS_2, LOOK_A, MAKE_A, fill};
use dc_core::{Act, Core, Event, Refused};
use dc_plain::{Call, Follow};
use dc_row::ROW_WORDS;
use std::alloc::Global;
use std::test::Fail;

/// An actor, its act, and why it is refused, if it is.
type Case = (u64, Act<'static>, Option<Refused>);

const LOOK_AB: Call<'static> = Call::Look {
    base: 1,
    path: b"/a/b",
    follow: Follow::Yes,
};

const MAKE_B: Call<'static> = Call::Mkdir {
    base: 1,
    path: b"/b",
};

/// A core of four rows and two actors. Nobody is actor 2.
static NO_ACTOR: [Case; 14] = [
    (2, Act::Begin(LOOK_A), Some(Refused::Actor)),
    (2, Act::Take, Some(Refused::Actor)),
    (2, Act::Shut(4), Some(Refused::Actor)),
    (2, Act::Write(4, 0, 0), Some(Refused::Actor)),
    (2, Act::Open(4), Some(Refused::Actor)),
    (2, Act::Commit, Some(Refused::Actor)),
    (2, Act::Give(false), Some(Refused::Actor)),
    (2, Act::Give(true), Some(Refused::Actor)),
    (2, Act::Note(4), Some(Refused::Actor)),
    (2, Act::Read, Some(Refused::Actor)),
    (2, Act::Pivot, Some(Refused::Actor)),
    (2, Act::Check(0), Some(Refused::Actor)),
    (2, Act::Again, Some(Refused::Actor)),
    (2, Act::Quit, Some(Refused::Actor)),
];

/// Nobody has the lock or a call. A pivot needs neither.
static NO_LOCK_NO_CALL: [Case; 13] = [
    (0, Act::Shut(4), Some(Refused::NotHolder)), // and there is no such row
    (0, Act::Write(4, 0, 0), Some(Refused::NotHolder)), // nor such a row or word
    (0, Act::Open(4), Some(Refused::NotHolder)), // nor such a row
    (0, Act::Commit, Some(Refused::NotHolder)), // nor a call
    (0, Act::Give(false), Some(Refused::NotHolder)),
    (0, Act::Give(true), Some(Refused::NotHolder)), // nor a call
    (0, Act::Note(4), Some(Refused::NoCall)), // nor such a row
    (0, Act::Read, Some(Refused::NoCall)), // nor a note
    (0, Act::Check(0), Some(Refused::NoCall)), // nor a pivot
    (0, Act::Again, Some(Refused::NoCall)),
    (0, Act::Quit, Some(Refused::NoCall)),
    (0, Act::Pivot, None),
    (0, Act::Pivot, None),
];

/// Actor 0 gets a call and the lock, actor 1 a call.
static LOCKED: [Case; 10] = [
    (0, Act::Begin(MAKE_A), None),
    (0, Act::Begin(LOOK_A), Some(Refused::Unfinished)),
    (0, Act::Take, None),
    (0, Act::Begin(LOOK_A), Some(Refused::Holder)), // and a call is unanswered
    (0, Act::Take, Some(Refused::Held)),
    (1, Act::Take, Some(Refused::Held)),
    (1, Act::Shut(0), Some(Refused::NotHolder)),
    (1, Act::Begin(LOOK_A), None),
    (1, Act::Commit, Some(Refused::NotHolder)), // and the call alters nothing
    (1, Act::Give(true), Some(Refused::NotHolder)),
];

/// Actor 0 has the lock. Row 0 comes to say that there is no `/a`.
static ROWS: [Case; 21] = [
    (0, Act::Shut(4), Some(Refused::NoRow)),
    (0, Act::Write(4, 0, 0), Some(Refused::NoRow)), // nor such a word
    (0, Act::Write(0, 0, 1), Some(Refused::NoWord)), // and the row is even
    (0, Act::Write(0, ROW_WORDS as u64, 1), Some(Refused::NoWord)), // the same
    (0, Act::Write(0, 1, 257), Some(Refused::Even)),
    (0, Act::Open(4), Some(Refused::NoRow)),
    (0, Act::Open(0), Some(Refused::Even)),
    (0, Act::Shut(0), None),
    (0, Act::Shut(0), Some(Refused::Odd)),
    (0, Act::Write(0, 0, 1), Some(Refused::NoWord)),
    (0, Act::Write(0, 1, 257), None),
    (0, Act::Open(0), Some(Refused::Untrue)), // words that spell nothing
    (1, Act::Note(4), Some(Refused::NoRow)),
    (1, Act::Note(0), Some(Refused::Odd)),
    (0, Act::Give(false), Some(Refused::OddRow(0))),
    (0, Act::Give(true), Some(Refused::OddRow(0))), // and the call alters the tree
    (0, Act::Write(0, 2, 1), None),
    (0, Act::Write(0, 4, 97), None),
    (0, Act::Open(0), None),
    (0, Act::Open(0), Some(Refused::Even)),
    (0, Act::Give(true), Some(Refused::Alters)),
];

/// Row 1 comes to say the same, and actor 0 makes `/a`.
static TOUCHED: [Case; 17] = [
    (0, Act::Shut(1), None),
    (0, Act::Write(1, 1, 257), None),
    (0, Act::Write(1, 2, 1), None),
    (0, Act::Write(1, 4, 97), None),
    (0, Act::Open(1), None),
    (0, Act::Commit, Some(Refused::Touched(0))), // and so is row 1
    (0, Act::Shut(0), None),
    (0, Act::Commit, Some(Refused::Touched(1))),
    (0, Act::Shut(1), None),
    (0, Act::Commit, None),
    (0, Act::Commit, Some(Refused::NoCall)),
    (0, Act::Open(1), Some(Refused::Untrue)), // there is an `/a` now
    (0, Act::Give(false), Some(Refused::OddRow(0))), // and so is row 1
    (0, Act::Give(true), Some(Refused::OddRow(0))), // and there is no call
    (0, Act::Write(0, 1, 16777473), None),
    (0, Act::Write(0, 3, 2), None),
    (0, Act::Open(0), None),
];

/// Row 1 becomes empty, and actor 0 gives the lock back. It is refused its call, to make `/a` again.
static UNALTERED: [Case; 15] = [
    (0, Act::Give(true), Some(Refused::OddRow(1))),
    (0, Act::Write(1, 1, 0), None),
    (0, Act::Write(1, 2, 0), None),
    (0, Act::Write(1, 4, 0), None),
    (0, Act::Open(1), None),
    (0, Act::Give(true), Some(Refused::NoCall)),
    (0, Act::Give(false), None),
    (0, Act::Begin(MAKE_A), None),
    (0, Act::Take, None),
    (0, Act::Commit, Some(Refused::Unaltered)),
    (0, Act::Give(true), None),
    (0, Act::Give(true), Some(Refused::NotHolder)),
    (0, Act::Begin(MAKE_B), None),
    (0, Act::Quit, None),
    (0, Act::Quit, Some(Refused::NoCall)),
];

/// An actor reads the words of a row after its count.
static READ_WHOLE: [Case; ROW_WORDS - 1] = [(1, Act::Read, None); ROW_WORDS - 1];

/// Actor 1 begins to look for `/a/b` by row 0.
static WALK: [Case; 5] = [
    (1, Act::Quit, None),
    (1, Act::Begin(LOOK_AB), None),
    (1, Act::Read, Some(Refused::NoNote)), // there is none
    (1, Act::Check(0), Some(Refused::Early)), // and there is no note
    (1, Act::Note(0), None),
];

/// Row 0 is read, and row 1, but not whole.
static READ: [Case; 12] = [
    (1, Act::Read, Some(Refused::NoNote)), // it is whole
    (1, Act::Check(0), Some(Refused::Early)),
    (1, Act::Note(1), None),
    (1, Act::Read, None),
    (1, Act::Pivot, None),
    (1, Act::Pivot, Some(Refused::Late)),
    (1, Act::Note(4), Some(Refused::Late)), // and there is no such row
    (1, Act::Read, Some(Refused::Late)),
    (1, Act::Check(2), Some(Refused::NoNote)), // there is none
    (1, Act::Check(1), Some(Refused::NoNote)), // it is not whole
    (1, Act::Check(0), None),
    (1, Act::Check(0), Some(Refused::NoNote)), // it was checked
];

/// Row 0 was filled anew. Row 2 is noted.
static REFILLED: [Case; 9] = [
    (1, Act::Check(0), Some(Refused::NoNote)), // and its row has another count
    (1, Act::Check(1), Some(Refused::NoNote)),
    (1, Act::Again, None),
    (1, Act::Check(0), Some(Refused::Early)),
    (1, Act::Note(0), None),
    (1, Act::Pivot, None),
    (1, Act::Check(0), Some(Refused::NoNote)),
    (1, Act::Again, None),
    (1, Act::Note(2), None),
];

/// It was read, and gets other counts.
static CHANGED: [Case; 8] = [
    (1, Act::Pivot, None),
    (0, Act::Take, None),
    (0, Act::Shut(2), None),
    (1, Act::Check(0), Some(Refused::Changed(2, 0, 1))),
    (0, Act::Open(2), None),
    (1, Act::Check(0), Some(Refused::Changed(2, 0, 2))),
    (0, Act::Give(false), None),
    (0, Act::Give(false), Some(Refused::NotHolder)),
];

/// The first case of a list, counted from 0, that went otherwise, or as many as there are.
fn first_other(core: &mut Core, alloc: Global, cases: &[Case]) -> usize {
    for (i, (actor, act, want)) in cases.iter().enumerate() {
        let event = Event {
            actor: *actor,
            act: *act,
        };
        if core.step(alloc, event).err() != *want {
            return i;
        }
    }
    cases.len()
}

/// The lists before row 0 is filled anew.
fn before() -> [&'static [Case]; 9] {
    [
        &NO_ACTOR,
        &NO_LOCK_NO_CALL,
        &LOCKED,
        &ROWS,
        &TOUCHED,
        &UNALTERED,
        &WALK,
        &READ_WHOLE,
        &READ,
    ]
}

/// The lists afterwards.
fn afterwards() -> [&'static [Case]; 3] {
    [&REFILLED, &READ_WHOLE, &CHANGED]
}

/// Takes the lists one after the other, and fails if a case goes otherwise.
fn take(core: &mut Core, alloc: Global, lists: &[&[Case]]) -> Result<(), Fail> {
    for (i, cases) in lists.iter().enumerate() {
        let found = first_other(core, alloc, cases);
        if found != cases.len() {
            return Err(Fail::from(("list and case", i, found)));
        }
    }
    Ok(())
}

/// Takes all lists, and fills row 0 in between. It says whether that was done.
fn take_all(core: &mut Core, alloc: Global) -> Result<bool, Fail> {
    take(core, alloc, &before())?;
    let filled = fill(core, alloc, 0, 0, &A_IS_2).is_ok();
    take(core, alloc, &afterwards())?;
    Ok(filled)
}

#[test]
fn each_act_is_refused_for_each_reason(rt: HostRuntime) -> Result<(), Fail> {
    let mut core = Core::new(rt.alloc(), 1, 2, 16)?;
    assert!(rt; take_all(&mut core, rt.alloc())?);
    assert!(rt; core.finished().len() == 2 && core.clock() == 1);
    Ok(())
}
