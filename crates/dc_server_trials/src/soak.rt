//! Rounds of the soak as they are drawn and played, and records and trees that are wrong.

ghost use Rattle.std.specs.Thread.{IsSync};

use dc_cache::{Ended, SlabStore};
use dc_check::Stamp;
use dc_names::NoMemory;
use dc_plain::{OwnCall, Reply, Sort};
use dc_soak::{BUCKETS, Draw, NAMES, Round, Shaken, Tally, Wrong, agree, judge};
use std::alloc::{AllocError, Global};
use std::sync::Wait;
use std::test::Fail;
use std::thread::Threads;

/// A round of one thread.
fn alone(seed: u64) -> Round {
    Round {
        seed,
        place: 1,
        threads: 1,
        steps: 200,
    }
}

/// What is wrong about the round of a seed, in words.
fn told(alloc: Global, seed: u64, wrong: &Wrong) -> Result<String, AllocError> {
    format!(in alloc; "seed {seed}: {wrong}")
}

/// Fails if a round went wrong.
fn fail_if_wrong(alloc: Global, seed: u64, wrong: &Option<Wrong>) -> Result<(), Fail> {
    match wrong {
        Some(wrong) => Err(Fail::from(told(alloc, seed, wrong)?)),
        None => Ok(()),
    }
}

/// Plays a round, and counts it. Fails if it goes wrong.
fn play<R: Threads + Wait + Sync>(
    rt: &R,
    alloc: Global,
    seed: u64,
    whole: &mut Tally,
) -> Result<(), Fail>
    requires { IsSync R.row }
{
    let played = Round::of(seed, 800).play(rt, alloc)?;
    whole.take_in(&played.tally);
    fail_if_wrong(alloc, seed, &played.wrong)
}

/// Plays eight rounds, and counts them.
fn play_all<R: Threads + Wait + Sync>(rt: &R, alloc: Global, whole: &mut Tally) -> Result<(), Fail>
    requires { IsSync R.row }
{
    for seed in 1..9 {
        play(rt, alloc, seed, whole)?;
    }
    Ok(())
}

/// Whether enough came of eight rounds.
fn is_rich(whole: &Tally) -> bool {
    let shaken = whole.hits > 100 && whole.emptied > 10 && whole.splits > 10;
    shaken && whole.rounds == 8 && whole.changes > 100 && whole.evicted > 10
}

/// Whether calls of a kind were made, and some of them were refused.
fn is_refused_in_part(whole: &Tally, kind: usize) -> bool {
    match (whole.calls.get(kind), whole.refused.get(kind)) {
        (Some(made), Some(refused)) => 0 < *refused && refused < made,
        _ => false,
    }
}

#[test]
fn rounds_are_legal(rt: HostRuntime) -> Result<(), Fail> {
    let mut whole = Tally::default();
    play_all(&rt, rt.alloc(), &mut whole)?;
    assert!(rt; is_rich(&whole));
    for (kind, name) in NAMES.iter().enumerate() {
        assert!(rt; is_refused_in_part(&whole, kind), "{name}");
    }
    Ok(())
}

/// How many changes of a thread were answered.
fn changes_of(stamps: &[Stamp], session: u64) -> u64 {
    let mut count = 0u64;
    for stamp in stamps {
        if stamp.session == session && stamp.call.as_call().sort() == Sort::Change {
            count = count.saturating_add(1);
        }
    }
    count
}

/// Threads that make, link, rename and remove in shared directories, beside their look-ups.
const FOUR: Round = Round {
    seed: 1,
    place: 1,
    threads: 4,
    steps: 6_000,
};

/// Whether enough changes of each of the four threads were answered.
fn change_enough(stamps: &[Stamp]) -> bool {
    for session in 0..FOUR.threads {
        if changes_of(stamps, session) < 2_000 {
            return false;
        }
    }
    true
}

/// Whether nothing is wrong about records and the tree that was left.
fn are_right(alloc: Global, stamps: Vec<Stamp>, ended: Option<Ended>) -> Result<bool, NoMemory> {
    let wrong = judge(alloc, stamps, ended)?;
    Ok(wrong.is_none())
}

#[test]
fn four_threads_change_what_one_plain_tree_explains(rt: HostRuntime) -> Result<(), Fail> {
    let Shaken { stamps, ended, .. } = FOUR.shake(&rt, rt.alloc())?;
    assert!(rt; change_enough(&stamps));
    assert!(rt; are_right(rt.alloc(), stamps, ended)?);
    Ok(())
}

/// Whether a round of this many threads comes over this many buckets.
fn comes(buckets: u64, threads: u64) -> bool {
    for seed in 0..60 {
        let round = Round::of(seed, 8_000);
        if round.buckets() == buckets && round.threads == threads {
            return true;
        }
    }
    false
}

#[test]
fn all_sizes_come(rt: HostRuntime) {
    for buckets in BUCKETS {
        for threads in 2..17 {
            assert!(rt; comes(buckets, threads), "{threads} on {buckets}");
        }
    }
}

/// The first two hundred calls that a thread draws.
fn drawn(alloc: Global, thread: u64) -> Result<Vec<OwnCall>, NoMemory> {
    let mut draw = Draw::new(alloc, 5, thread);
    let mut calls = Vec::new(alloc);
    for _ in 0..200 {
        calls.push(draw.call()?)?;
    }
    Ok(calls)
}

/// Whether two threads draw the same calls.
fn draw_alike(alloc: Global, one: u64, other: u64) -> Result<bool, NoMemory> {
    Ok(drawn(alloc, one)? == drawn(alloc, other)?)
}

#[test]
fn calls_are_drawn_again(rt: HostRuntime) -> Result<(), Fail> {
    assert!(rt; draw_alike(rt.alloc(), 1, 1)? && !draw_alike(rt.alloc(), 1, 2)?);
    Ok(())
}

/// What is done to the record or the tree of a round.
#[derive(Clone, Copy)]
enum Deed {
    Nothing,
    /// A reply becomes one that no tree gives.
    ReplyChanged,
    /// The last records are taken away.
    CutShort,
    /// The tree becomes another than the one that the changes make.
    TreeChanged,
    TreeLost,
}

/// Another reply for the record of line 101.
fn change_reply(stamps: &mut [Stamp]) {
    if let Some(stamp) = stamps.get_mut(100) {
        stamp.reply = Reply::Refused(99);
    }
}

/// A new tree in the place of one that isn't lost.
fn change_tree(alloc: Global, ended: &mut Option<Ended>) -> Result<(), NoMemory> {
    if let Some(ended) = ended {
        ended.store = SlabStore::new(alloc)?;
    }
    Ok(())
}

/// Does a deed to a record or a tree.
fn do_to(
    alloc: Global,
    deed: Deed,
    stamps: &mut Vec<Stamp>,
    ended: &mut Option<Ended>,
) -> Result<(), NoMemory> {
    match deed {
        Deed::Nothing => {}
        Deed::ReplyChanged => change_reply(stamps),
        Deed::CutShort => stamps.truncate(100),
        Deed::TreeChanged => return change_tree(alloc, ended),
        Deed::TreeLost => *ended = None,
    }
    Ok(())
}

/// What is wrong about a round of one thread after a deed.
fn wrong_after<R: Threads + Wait + Sync>(
    rt: &R,
    alloc: Global,
    deed: Deed,
) -> Result<Option<Wrong>, Fail>
    requires { IsSync R.row }
{
    let Shaken {
        mut stamps,
        mut ended,
        ..
    } = alone(1).shake(rt, alloc)?;
    do_to(alloc, deed, &mut stamps, &mut ended)?;
    Ok(judge(alloc, stamps, ended)?)
}

/// A short word for what is wrong.
fn word(wrong: &Option<Wrong>) -> &'static str {
    match wrong {
        None => "nothing",
        Some(Wrong::Record(101, Some(_))) => "record 101",
        Some(Wrong::Record(..)) => "another record",
        Some(Wrong::Tree) => "tree",
        Some(Wrong::Clock(..)) => "clock",
        Some(Wrong::Lost) => "lost",
    }
}

/// The word for what is wrong about a round of one thread after a deed.
fn word_after<R: Threads + Wait + Sync>(
    rt: &R,
    alloc: Global,
    deed: Deed,
) -> Result<&'static str, Fail>
    requires { IsSync R.row }
{
    Ok(word(&wrong_after(rt, alloc, deed)?))
}

/// Deeds, and what is wrong about a round after each.
static DEEDS: [(Deed, &str); 5] = [
    (Deed::Nothing, "nothing"),
    (Deed::ReplyChanged, "record 101"),
    (Deed::CutShort, "clock"),
    (Deed::TreeChanged, "tree"),
    (Deed::TreeLost, "lost"),
];

/// Whether the tree of a round isn't lost, and agrees with itself.
fn agrees<R: Threads + Wait + Sync>(rt: &R, alloc: Global) -> Result<bool, Fail>
    requires { IsSync R.row }
{
    let Shaken { ended, .. } = alone(1).shake(rt, alloc)?;
    match ended {
        Some(Ended { store, .. }) => Ok(agree(alloc, &store, &store)?),
        None => Ok(false),
    }
}

#[test]
fn wrong_records_and_trees_are_told(rt: HostRuntime) -> Result<(), Fail> {
    for (deed, want) in DEEDS.iter() {
        assert_eq!(rt; word_after(&rt, rt.alloc(), *deed)?, *want);
    }
    assert!(rt; agrees(&rt, rt.alloc())?);
    Ok(())
}
