//! The four walks of docs/ARCHITECTURE.md, step by step where a step is public: one bucket, `/a` is 2
//! and `/a/d` is 3, rows 0 and 1 tell of them, both with count 2.

ghost use Rattle.std.specs.Prelude.{◌<◌};
ghost use Rattle.dc_table.specs.Passes.{share};
ghost use Rattle.dc_walk.specs.Findings.{CanWalk};

use super::by_hand::{make_two, note_two, turn};
use super::probe::{Words, probe};
use super::{change, count, is_answered, look};
use crate::calls::rename;
use dc_names::Kind;
use dc_plain::{Call, Reply};
use dc_row::ROW_WORDS;
use dc_rows::shrink;
use dc_table::{Pass, Shared};
use dc_walk::{Fast, Why};
use std::alloc::Global;
use std::sync::Wait;

/// The first words of a row: its count, its header, a directory, a target, and a name of one byte.
type Front = [u64; 5];

static A_IS_2: Front = [2, 16_777_473, 1, 2, 97];

static D_IS_3: Front = [2, 16_777_473, 2, 3, 100];

static Z_IS_ABSENT: Front = [2, 257, 2, 0, 122];

static A_IS_ABSENT: Front = [4, 257, 1, 0, 97];

/// A row that was never written.
static NOTHING: Front = [0; 5];

/// The words of a row, if it is even.
fn read_row(shared: &Shared, pass: &mut Pass, row: u64) -> Option<Words>
    requires can { CanWalk shared.now pass.old × (3 < (share pass.old).rows) }
    requires row { row < 4 }
    ensures can { CanWalk shared.now pass.new × (3 < (share pass.new).rows) }
{
    let call = Call::Stat {
        base: 1,
        path: b"/",
    };
    probe(shared.reader(), pass, &call, row, true).ok()
}

/// Whether these are a row's first words, and zeros follow.
fn is_row(words: &Option<Words>, front: &Front) -> bool {
    match words {
        Some(words) => words[..5] == front[..] && words[5..].iter().all(|word| *word == 0),
        None => false,
    }
}

/// Whether rows 0, 1 and 2 have these words, and row 3 was never written.
fn are_rows(shared: &Shared, pass: &mut Pass, first: &Front, second: &Front, third: &Front) -> bool
    requires can { CanWalk shared.now pass.old × (3 < (share pass.old).rows) }
    ensures can { CanWalk shared.now pass.new × (3 < (share pass.new).rows) }
{
    let row_0 = read_row(shared, pass, 0);
    let row_1 = read_row(shared, pass, 1);
    let row_2 = read_row(shared, pass, 2);
    let row_3 = read_row(shared, pass, 3);
    is_row(&row_0, first)
        && is_row(&row_1, second)
        && is_row(&row_2, third)
        && is_row(&row_3, &NOTHING)
}

/// A hit. It writes nothing.
fn hits(shared: &Shared, pass: &mut Pass, other: &mut Pass) -> bool
    requires can { CanWalk shared.now pass.old × (3 < (share pass.old).rows) }
    requires other { CanWalk shared.now other.old }
{
    let before = are_rows(shared, pass, &A_IS_2, &D_IS_3, &NOTHING);
    let found = is_answered(
        &look(shared, other, b"/a/d"),
        &Reply::Found(3, Kind::Dir),
        2,
    );
    let after = are_rows(shared, pass, &A_IS_2, &D_IS_3, &NOTHING);
    before && found && after && shared.learn(other) == 2
}

/// A miss. The walk by rows alone gives up after one answered question; the counted walk fills row 2, alters
/// neither the tree nor another row, and leaves no pin.
fn misses<R: Wait>(
    rt: &R,
    alloc: Global,
    shared: &Shared,
    pass: &mut Pass,
    other: &mut Pass,
) -> bool
    requires can { CanWalk shared.now pass.old × (3 < (share pass.old).rows) }
    requires other { CanWalk shared.now other.old }
{
    let absent = Reply::Refused(2);
    let missed = matches!(
        look(shared, other, b"/a/z"),
        Some(Fast::Again(Why::Miss(1)))
    );
    let before = are_rows(shared, pass, &A_IS_2, &D_IS_3, &NOTHING);
    let counted = is_answered(&count(rt, alloc, shared, other, b"/a/z"), &absent, 2);
    let after = are_rows(shared, pass, &A_IS_2, &D_IS_3, &Z_IS_ABSENT);
    let found = is_answered(&look(shared, other, b"/a/z"), &absent, 2);
    let kept = shared.learn(other) == 2 && shrink(shared, rt, other, 4) == 3;
    missed && before && counted && after && found && kept
}

/// A loss and its change: a look-up of `/a/d` notes rows 0 and 1, then `/a` becomes `/b`. The check of row 0
/// fails, with count 4 where 2 was noted. The change adds one to the clock and writes row 0 alone, since `b`
/// has no row. `None` if a row is odd.
fn loses<R: Wait>(
    rt: &R,
    alloc: Global,
    shared: &Shared,
    pass: &mut Pass,
    other: &mut Pass,
) -> Option<bool>
    requires can { CanWalk shared.now pass.old × (3 < (share pass.old).rows) }
    requires other { CanWalk shared.now other.old }
{
    let noted = note_two(shared, pass, b"/a/d")?;
    let moved = change(rt, alloc, shared, other, &rename(b"/a", b"/b")) == Some((Reply::Unit, 2));
    let (last, at, found) = turn(shared, pass, b"/a/d", &noted)?;
    let gone = is_answered(&look(shared, other, b"/a/d"), &Reply::Refused(2), 3);
    let missed = matches!(look(shared, other, b"/b"), Some(Fast::Again(Why::Miss(0))));
    let read = is_row(&Some(noted.0), &A_IS_2) && is_row(&Some(noted.1), &D_IS_3);
    let turned = last == [0; ROW_WORDS] && at == 3 && found == [Err((2, 4)), Ok(()), Ok(())];
    Some(moved && gone && missed && read && turned && shared.learn(other) == 3)
}

/// A change, and what it leaves in the rows.
fn changes<R: Wait>(
    rt: &R,
    alloc: Global,
    shared: &Shared,
    pass: &mut Pass,
    other: &mut Pass,
) -> bool
    requires can { CanWalk shared.now pass.old × (3 < (share pass.old).rows) }
    requires other { CanWalk shared.now other.old }
{
    let moved = change(rt, alloc, shared, other, &rename(b"/a", b"/b")) == Some((Reply::Unit, 2));
    moved && are_rows(shared, pass, &A_IS_ABSENT, &D_IS_3, &NOTHING) && shared.learn(other) == 3
}

#[derive(Clone, Copy)]
enum Walk {
    Hit,
    Miss,
    Loss,
    Change,
}

/// The walks by their names.
static WALKS: [(&str, Walk); 4] = [
    ("a hit", Walk::Hit),
    ("a miss", Walk::Miss),
    ("a loss and its change", Walk::Loss),
    ("a change", Walk::Change),
];

/// Whether a walk comes to what it should over a new table whose rows tell of two directories. `None` if memory
/// is refused or a row is odd.
fn comes<R: Wait>(rt: &R, alloc: Global, walk: Walk) -> Option<bool> {
    let (shared, mut pass) = Shared::new(alloc, 1, 16).ok()?;
    let mut other = shared.split(&mut pass);
    if !make_two(rt, alloc, &shared, &mut other) {
        return Some(false);
    }
    match walk {
        Walk::Hit => Some(hits(&shared, &mut pass, &mut other)),
        Walk::Miss => Some(misses(rt, alloc, &shared, &mut pass, &mut other)),
        Walk::Loss => loses(rt, alloc, &shared, &mut pass, &mut other),
        Walk::Change => Some(changes(rt, alloc, &shared, &mut pass, &mut other)),
    }
}

#[test]
fn four_walks_come_to_what_they_should(rt: HostRuntime) {
    for (what, walk) in WALKS.iter() {
        assert!(rt; comes(&rt, rt.alloc(), *walk) == Some(true), "{what}");
    }
}
