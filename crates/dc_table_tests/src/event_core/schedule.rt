//! Three actors by a fixed generator, which also evict: each finished reply is that of the slow machine
//! at its point.
use crate::calls::{create, look, mkdir};
use dc_core::{Act, Core, Event, Finished, Refused};
use dc_names::{Kind, NoMemory};
use dc_plain::{Call, Flags, Follow, OwnCall, PlainTree, Reply};
use dc_row::{EMPTY_ROW, ROW_WORDS, Row, RowLabel, RowText, encode};
use std::alloc::Global;
use std::test::Fail;

/// Paths of few names, so that calls meet what others left.
static PATHS: [&[u8]; 6] = [b"/a", b"/b", b"/a/a", b"/a/b", b"/b/a", b"/b/b"];

/// The directory and the name of each.
static SPOTS: [(&[u8], &[u8]); 6] = [
    (b"/", b"a"),
    (b"/", b"b"),
    (b"/a", b"a"),
    (b"/a", b"b"),
    (b"/b", b"a"),
    (b"/b", b"b"),
];

/// The words of a row for a name in a directory.
fn named(dir: u64, name: &[u8], target: Option<(u64, Kind)>) -> Result<[u64; ROW_WORDS], Fail> {
    let text = RowText::of(name).ok_or("a long name")?;
    let words = encode(&Row::Entry(dir, RowLabel::Name(text), target)).ok_or("no such row")?;
    Ok(words)
}

/// The words of a row for the text that each link has.
fn linked(link: u64) -> Result<[u64; ROW_WORDS], Fail> {
    let text = RowText::of(b"b").ok_or("a long text")?;
    let words = encode(&Row::Link(link, text)).ok_or("no such row")?;
    Ok(words)
}

/// The next number of a fixed row in which none seems to follow from the one before.
fn drawn(number: u32) -> u32 {
    number.wrapping_mul(1_664_525).wrapping_add(1_013_904_223)
}

/// One of the paths.
fn path_of(number: u32) -> &'static [u8] {
    PATHS[(number >> 24) as usize % PATHS.len()]
}

/// A change, or now and then a read.
fn change_of(number: u32) -> Call<'static> {
    let (path, other) = (path_of(number), path_of(drawn(number)));
    match (number >> 12) % 8 {
        0 | 1 => mkdir(path),
        2 => create(path),
        3 => Call::Unlink { base: 1, path },
        4 => Call::Rmdir { base: 1, path },
        5 => Call::Stat { base: 1, path },
        6 => Call::Symlink {
            base: 1,
            text: b"b",
            path,
        },
        _ => Call::Rename {
            base: 1,
            old: other,
            new: path,
            flags: Flags::default(),
        },
    }
}

/// Where a path leads, and a link is kept.
fn found(
    alloc: Global,
    tree: &mut PlainTree,
    path: &[u8],
) -> Result<Option<(u64, Kind)>, NoMemory> {
    let call = Call::Look {
        base: 1,
        path,
        follow: Follow::No,
    };
    match tree.apply(alloc, &call)? {
        Reply::Found(number, kind) => Ok(Some((number, kind))),
        _ => Ok(None),
    }
}

/// What a row may say of one of the paths, by a tree.
fn words_of(alloc: Global, tree: &mut PlainTree, number: u32) -> Result<[u64; ROW_WORDS], Fail> {
    let (parent, name) = SPOTS[(number >> 24) as usize % SPOTS.len()];
    let Some((dir, Kind::Dir)) = found(alloc, tree, parent)? else {
        return Ok(EMPTY_ROW);
    };
    let target = found(alloc, tree, path_of(number))?;
    match target {
        Some((link, Kind::Link)) if number % 2 == 0 => linked(link),
        _ => named(dir, name, target),
    }
}

/// What an actor is to do, the last first.
type Plan = Vec<Act<'static>>;

/// What comes after four rows are read, the last first.
static ANSWER: [Act<'static>; 5] = [
    Act::Check(3),
    Act::Check(2),
    Act::Check(1),
    Act::Check(0),
    Act::Pivot,
];

/// The words of a row after its count.
static READ: [Act<'static>; ROW_WORDS - 1] = [Act::Read; ROW_WORDS - 1];

/// A row is noted and read.
fn push_note(plan: &mut Plan, row: u64) -> Result<(), NoMemory> {
    plan.extend_from_slice(&READ)?;
    plan.push(Act::Note(row))?;
    Ok(())
}

/// The walk of a look-up over four rows, and what comes after it if nobody answers.
fn push_walk(plan: &mut Plan) -> Result<(), NoMemory> {
    plan.extend_from_slice(&ANSWER)?;
    for row in 0..4 {
        push_note(plan, row)?;
    }
    Ok(())
}

/// A row is written and opened.
fn push_row(plan: &mut Plan, row: u64, words: &[u64; ROW_WORDS]) -> Result<(), NoMemory> {
    plan.push(Act::Open(row))?;
    for i in 1..ROW_WORDS {
        plan.push(Act::Write(row, i as u64, words[i]))?;
    }
    Ok(())
}

/// A look-up.
fn push_look(plan: &mut Plan, number: u32) -> Result<(), NoMemory> {
    plan.push(Act::Quit)?;
    push_walk(plan)?;
    plan.push(Act::Begin(look(path_of(number))))?;
    Ok(())
}

/// What comes after the beginning of a change, the last first.
static CHANGE: [Act<'static>; 5] = [
    Act::Quit,
    Act::Give(false),
    Act::Give(true),
    Act::Commit,
    Act::Take,
];

/// A change, or now and then a read.
fn push_change(plan: &mut Plan, number: u32) -> Result<(), NoMemory> {
    plan.extend_from_slice(&CHANGE)?;
    plan.push(Act::Begin(change_of(number)))?;
    Ok(())
}

/// Another fact for a row.
fn push_shut(plan: &mut Plan, row: u64) -> Result<(), NoMemory> {
    plan.extend_from_slice(&[Act::Give(false), Act::Shut(row), Act::Take])?;
    Ok(())
}

/// A look-up, a change, or another fact for a row.
fn push_call(plan: &mut Plan, number: u32) -> Result<(), NoMemory> {
    match (number >> 16) % 4 {
        0 => push_look(plan, number),
        1 | 2 => push_change(plan, number),
        _ => push_shut(plan, number as u64 % 4),
    }
}

/// An act is done again, after another.
fn push_again(plan: &mut Plan, act: Act<'static>, first: Act<'static>) -> Result<(), Fail> {
    plan.extend_from_slice(&[act, first])?;
    Ok(())
}

/// A walk begins anew.
fn push_anew(plan: &mut Plan) -> Result<(), Fail> {
    push_walk(plan)?;
    plan.push(Act::Again)?;
    Ok(())
}

/// A row that is in the way is opened empty.
fn push_empty(plan: &mut Plan, row: u64) -> Result<(), Fail> {
    push_row(plan, row, &EMPTY_ROW)?;
    Ok(())
}

/// A row that is in the way is opened with what a tree tells.
fn push_told(
    alloc: Global,
    plan: &mut Plan,
    tree: &mut PlainTree,
    row: u64,
    number: u32,
) -> Result<(), Fail> {
    let words = words_of(alloc, tree, number)?;
    push_row(plan, row, &words)?;
    Ok(())
}

/// The core, the slow machine after each change so far, and the plans of three actors.
#[derive(Drop)]
struct Three {
    core: Core,
    tree: PlainTree,
    plans: Vec<Plan>,
    done: u64,
    evictions: u64,
}

impl Three {
    fn new(alloc: Global) -> Result<Three, Fail> {
        let mut plans = Vec::new(alloc);
        for _ in 0..3 {
            plans.push(Vec::new(alloc))?;
        }
        Ok(Three {
            core: Core::new(alloc, 1, 3, 16)?,
            tree: PlainTree::new(alloc, 16)?,
            plans,
            done: 0,
            evictions: 0,
        })
    }
}

impl Three {
    /// One of the actors does what its plan says next.
    fn turn(&mut self, alloc: Global, number: u32) -> Result<(), Fail> {
        let actor = (number >> 20) as usize % 3;
        let Some(plan) = self.plans.get_mut(actor) else {
            return Ok(());
        };
        let Some(act) = plan.pop() else {
            push_call(plan, drawn(number))?;
            return Ok(());
        };
        let event = Event {
            actor: actor as u64,
            act,
        };
        match self.core.step(alloc, event) {
            Ok(()) => self.note_done(alloc, act),
            Err(why) => self.amend(alloc, actor, act, why, number),
        }
    }

    /// An event was done: the slow machine makes the same change.
    fn note_done(&mut self, alloc: Global, act: Act) -> Result<(), Fail> {
        self.done = self.done.saturating_add(1);
        if let (Act::Commit, Some(last)) = (act, self.core.finished().last()) {
            self.tree.apply(alloc, &last.call.as_call())?;
        }
        Ok(())
    }

    /// An event was refused: a row that is in the way is shut, or opened, and a walk begins anew.
    fn amend(
        &mut self,
        alloc: Global,
        actor: usize,
        act: Act<'static>,
        why: Refused,
        number: u32,
    ) -> Result<(), Fail> {
        let Some(plan) = self.plans.get_mut(actor) else {
            return Ok(());
        };
        match why {
            Refused::Touched(row) => push_again(plan, act, Act::Shut(row)),
            Refused::OddRow(row) => {
                let evicts = (number >> 8) % 4 == 0;
                self.evictions = self.evictions.saturating_add(u64::from(evicts));
                plan.push(act)?;
                if evicts {
                    push_empty(plan, row)
                } else {
                    push_told(alloc, plan, &mut self.tree, row, number)
                }
            }
            Refused::Changed(..) => push_anew(plan),
            _ => Ok(()),
        }
    }
}

/// Whether the records of one point are the slow machine's replies, the change last.
fn are_replies(
    alloc: Global,
    tree: &mut PlainTree,
    records: &[Finished],
    at: u64,
    changes: bool,
) -> Result<bool, NoMemory> {
    let mut change = None;
    for record in records {
        let call = record.call.as_call();
        if record.at != at {
            continue;
        }
        if change.is_none() && tree.alters(alloc, &call)? {
            change = Some(record);
        } else if tree.apply(alloc, &call)? != record.reply {
            return Ok(false);
        }
    }
    match change {
        Some(record) => Ok(changes && tree.apply(alloc, &record.call.as_call())? == record.reply),
        None => Ok(!changes),
    }
}

/// How many look-ups found something, and how many found nothing, or no directory on the way.
fn look_ups(records: &[Finished]) -> (u64, u64) {
    let mut found: u64 = 0;
    let mut refused: u64 = 0;
    for record in records {
        match (&record.call, &record.reply) {
            (OwnCall::Look { .. }, Reply::Found(..)) => found = found.saturating_add(1),
            (OwnCall::Look { .. }, Reply::Refused(_)) => refused = refused.saturating_add(1),
            _ => {}
        }
    }
    (found, refused)
}

/// All turns. A row's words are one event each: with fewer turns hardly a row is written.
fn play(alloc: Global, three: &mut Three) -> Result<(), Fail> {
    let mut number = 7;
    for _ in 0..100_000 {
        number = drawn(number);
        three.turn(alloc, number)?;
    }
    Ok(())
}

/// Fails if the records of a point are not the slow machine's replies.
fn compare(alloc: Global, core: &Core) -> Result<(), Fail> {
    let clock = core.clock();
    let mut tree = PlainTree::new(alloc, 16)?;
    for at in 0..clock.saturating_add(1) {
        if !are_replies(alloc, &mut tree, core.finished(), at, at < clock)? {
            return Err(Fail::from(("at", at)));
        }
    }
    Ok(())
}

/// Whether enough came of all turns: events, evictions, changes, look-ups of each kind.
fn is_rich(three: &Three) -> bool {
    let (found, refused) = look_ups(three.core.finished());
    let many = three.done >= 5000 && three.evictions >= 20 && three.core.clock() >= 20;
    many && found >= 20 && refused >= 4
}

#[test]
fn schedules_are_one_tree(rt: HostRuntime) -> Result<(), Fail> {
    let mut three = Three::new(rt.alloc())?;
    play(rt.alloc(), &mut three)?;
    compare(rt.alloc(), &three.core)?;
    assert!(rt; is_rich(&three));
    Ok(())
}
