//! Facts of a tree, what touches them, and what follows from them.

use crate::calls::{Ask, Want};
use dc_names::{Kind, Name, NoMemory, parse};
use dc_plain::{
    Fact, Label, OwnCall, PlainTree, answer, answers_from_true_facts_are_replies,
    untouched_facts_stay,
};
use std::alloc::Global;
use std::test::Fail;

/// A fact, as a table of constants has it.
#[derive(Clone, Copy)]
enum Told {
    /// A directory, a name in it, and where that leads.
    Name(u64, &'static [u8], Option<(u64, Kind)>),
    /// A directory, and its parent.
    Up(u64, u64),
    /// A link, and its text.
    Text(u64, &'static [u8]),
}

impl Told {
    /// The fact itself, or `None` if there is no such name or text.
    fn fact(self) -> Option<Fact<'static>> {
        match self {
            Told::Name(dir, name, target) => {
                Some(Fact::Entry(dir, Label::Name(Name::new(name)?), target))
            }
            Told::Up(dir, parent) => {
                Some(Fact::Entry(dir, Label::DotDot, Some((parent, Kind::Dir))))
            }
            Told::Text(link, text) => Some(Fact::Text(link, parse(text).ok()?)),
        }
    }
}

/// `/a`, and `/l`, a link to it.
fn small_tree(alloc: Global) -> Result<PlainTree, NoMemory> {
    let mut tree = PlainTree::new(alloc, 16)?;
    tree.apply(alloc, &Ask::Mkdir(b"/a").call())?;
    tree.apply(alloc, &Ask::Symlink(b"a", b"/l").call())?;
    Ok(tree)
}

/// Facts, whether they hold in that tree, and whether the link's removal touches them.
static FACTS_SEEN: [(Told, bool, bool); 7] = [
    (Told::Name(1, b"a", Some((2, Kind::Dir))), true, false),
    (Told::Name(1, b"x", None), true, false),
    (Told::Up(2, 1), true, false),
    (Told::Text(3, b"a"), true, true),
    (Told::Name(1, b"a", None), false, false),
    (Told::Text(2, b"a"), false, false),
    (Told::Name(1, b"l", None), false, true),
];

/// Fails if a fact holds that should not, or is touched that should not be, or the other way round.
fn are_seen_so(alloc: Global) -> Result<(), Fail> {
    let tree = small_tree(alloc)?;
    let removal = Ask::Unlink(b"/l").call();
    for (i, (told, holds, touches)) in FACTS_SEEN.iter().enumerate() {
        let fact = told.fact().ok_or("no fact")?;
        if tree.holds(&fact) != *holds || tree.touches(alloc, &removal, &fact)? != *touches {
            return Err(Fail::from(("fact", i)));
        }
    }
    Ok(())
}

#[test]
fn facts_hold_and_are_touched(rt: HostRuntime) -> Result<(), Fail> {
    untouched_facts_stay();
    are_seen_so(rt.alloc())
}

/// What is told, and the answers that follow, if one does.
static FACTS: [Told; 4] = [
    Told::Name(1, b"l", Some((3, Kind::Link))),
    Told::Text(3, b"a"),
    Told::Name(1, b"a", Some((2, Kind::Dir))),
    Told::Name(1, b"a", None),
];

static ANSWERS: [(Ask<'static>, Option<Want<'static>>); 4] = [
    (Ask::Look(b"/l"), Some(Want::Found(2, Kind::Dir))),
    (Ask::Look(b"/l/x"), None),
    (Ask::Look(b""), Some(Want::Refused(2))),
    (Ask::Stat(b"/a"), None),
];

/// Whether a call is answered so by facts.
fn is_answered(
    alloc: Global,
    facts: &[Fact],
    ask: Ask<'_>,
    want: Option<Want<'_>>,
) -> Result<bool, NoMemory> {
    let reply = answer(alloc, facts, &ask.call())?;
    Ok(match (reply, want) {
        (Some(reply), Some(want)) => want.is(&reply),
        (None, None) => true,
        _ => false,
    })
}

/// The facts that are told.
fn facts(alloc: Global) -> Result<Vec<Fact<'static>>, Fail> {
    let mut facts = Vec::new(alloc);
    for told in FACTS.iter() {
        facts.push(told.fact().ok_or("no fact")?)?;
    }
    Ok(facts)
}

#[test]
fn answers_by_facts(rt: HostRuntime) -> Result<(), Fail> {
    let facts = facts(rt.alloc())?;
    for (ask, want) in ANSWERS.iter() {
        assert!(rt; is_answered(rt.alloc(), &facts, *ask, *want)?);
    }
    answers_from_true_facts_are_replies();
    Ok(())
}

#[test]
fn owns_a_call(rt: HostRuntime) -> Result<(), Fail> {
    let own = OwnCall::of(rt.alloc(), &Ask::Look(b"/a").call())?;
    assert!(rt; own.as_call() == Ask::Look(b"/a").call());
    Ok(())
}
