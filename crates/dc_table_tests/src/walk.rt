//! Look-ups over a table whose rows are filled, emptied and changed.

ghost use Rattle.dc_ops.specs.Asked.{IsChange};
ghost use Rattle.dc_walk.specs.Findings.{CanWalk};

mod busy;
mod by_hand;
mod causes;
mod four;
mod pinned;
mod probe;
mod spoiled;
mod steps;

use dc_names::{Kind, NAME_MAX, Name, Part, parse};
use dc_plain::{Call, Follow, Key, Reply};
use dc_table::{Pass, Shared};
use dc_walk::{Fast, Look, Room, Why, change_by_rows, key_of, walk_counted, walk_fast};
use pinned::{FILLED_AGAIN, FIVE_ROWS, ONE_BY_ONE, PINNED};
use std::alloc::Global;
use std::sync::Wait;
use std::test::Fail;
use steps::{Act, Step, Want, play_anew};

/// The question of a path from the root, or `None` if the text is no path.
fn from_root(text: &[u8]) -> Option<Look<'_>> {
    Some(Look {
        base: 1,
        path: parse(text).ok()?,
        follow: Follow::Yes,
    })
}

/// What the fast walk of a path from the root comes to, or `None` if the text is no path.
fn look(shared: &Shared, pass: &mut Pass, text: &[u8]) -> Option<Fast>
    requires { CanWalk shared.now pass.old }
    ensures { CanWalk shared.now pass.new }
{
    Some(walk_fast(shared.reader(), pass, &mut Room::new(), from_root(text)?))
}

/// What the walk that fills and pins rows comes to for a path from the root, or `None` if the text
/// is no path.
fn count<R: Wait>(
    rt: &R,
    alloc: Global,
    shared: &Shared,
    pass: &mut Pass,
    text: &[u8],
) -> Option<Fast>
    requires { CanWalk shared.now pass.old }
    ensures { CanWalk shared.now pass.new }
{
    let look = from_root(text)?;
    Some(walk_counted(shared, rt, alloc, pass, &mut Room::new(), look))
}

/// What a change is answered, and at which point, or `None` without memory.
fn change<R: Wait>(
    rt: &R,
    alloc: Global,
    shared: &Shared,
    pass: &mut Pass,
    call: &Call<'_>,
) -> Option<(Reply, u64)>
    requires { CanWalk shared.now pass.old × IsChange call.now }
    ensures { CanWalk shared.now pass.new }
{
    change_by_rows(shared, rt, alloc, pass, &mut Room::new(), call).ok()
}

/// Whether a path was answered so after this many changes.
fn is_answered(found: &Option<Fast>, reply: &Reply, at: u64) -> bool {
    match found {
        Some(Fast::Done(stamped)) => stamped.at == at && stamped.reply == *reply,
        _ => false,
    }
}

/// Whether a path led to the root after this many changes.
fn is_root_at(found: &Option<Fast>, at: u64) -> bool {
    is_answered(found, &Reply::Found(1, Kind::Dir), at)
}

static UNANSWERED: [Step; 5] = [
    Step::Lost(b"/z", Why::Miss(0)),
    Step::Lost(b"/a/z", Why::Miss(0)),
    Step::Lost(b"//./z/", Why::Miss(0)),
    Step::Lost(b"z", Why::Miss(0)),
    Step::Lost(b"..//../z", Why::Miss(0)),
];

const ROOT: Want = Want::Found(1, Kind::Dir);

static UNASKED: [Step; 5] = [
    Step::Look(b"/", ROOT, 0),
    Step::Look(b".", ROOT, 0),
    Step::Look(b"..", ROOT, 0),
    Step::Look(b"/../.", ROOT, 0),
    Step::Look(b"///", ROOT, 0),
];

static ONE_CHANGE: [Step; 3] = [
    Step::Change(Act::Mkdir(b"/a"), Want::Done(2), 0),
    Step::Look(b"/", ROOT, 1),
    Step::Lost(b"/a", Why::Miss(0)),
];

#[test]
fn a_name_is_sought_or_no_name(rt: HostRuntime) -> Result<(), Fail> {
    let (shared, mut p) = Shared::new(rt.alloc(), 1, 16).expect(&rt, "memory");
    let mut text = [b'n'; NAME_MAX + 2];
    text[0] = b'/';
    assert!(rt; look(&shared, &mut p, &text).is_none());
    let found = look(&shared, &mut p, &text[..NAME_MAX + 1]);
    assert!(rt; matches!(found, Some(Fast::Again(Why::Miss(0)))));
    Ok(())
}

/// The key of a name in the root.
fn in_root(name: &[u8]) -> Option<Key<'_>> {
    Some(key_of(1, Part::Normal(Name::new(name)?)))
}

/// Rows that were filled answer, what is there and what is not, and a change turns them.
static FILLED: [Step; 12] = [
    Step::Change(Act::Mkdir(b"/a"), Want::Done(2), 0),
    Step::Pin(b"a", 0),
    Step::Pin(b"b", 1),
    Step::Unpin(&[0, 1]),
    Step::Look(b"/a", Want::Found(2, Kind::Dir), 1),
    Step::Look(b"/b", Want::Refused(2), 1),
    Step::Change(Act::Rename(b"/a", b"/b"), Want::Unit, 1),
    Step::Look(b"/a", Want::Refused(2), 2),
    Step::Look(b"/b", Want::Found(2, Kind::Dir), 2),
    Step::Shrink(4, 2),
    Step::Lost(b"/a", Why::Miss(0)),
    Step::Learn(2),
];

/// Steps over a new table of some buckets, by what they show.
fn plays() -> [(&'static str, u64, &'static [Step]); 8] {
    [
        ("empty rows answer no question", 1, &UNANSWERED),
        ("the root asks no question", 1024, &UNASKED),
        ("the point is the clock", 1, &ONE_CHANGE),
        ("filled rows answer", 1, &FILLED),
        ("a pinned row is not taken", 1, &FIVE_ROWS),
        ("the pins of others stay", 1, &PINNED),
        ("rows are filled one by one", 1, &ONE_BY_ONE),
        ("an emptied row is filled again", 1, &FILLED_AGAIN),
    ]
}

#[test]
fn walks_come_to_what_they_should(rt: HostRuntime) {
    for (what, buckets, steps) in plays().iter() {
        let other = play_anew(&rt, rt.alloc(), *buckets, steps);
        assert!(rt; other.is_none(), "{what}: {other:?}");
    }
}
