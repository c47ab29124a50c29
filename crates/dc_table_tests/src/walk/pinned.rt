//! Walks that fill and pin rows, and walks under the lock.

ghost use Rattle.dc_walk.specs.Findings.{CanWalk};

use super::steps::{Act, Step, Want, play};
use super::{from_root, in_root, is_answered, is_root_at};
use dc_index::HashedKey;
use dc_names::Kind;
use dc_plain::{Call, Follow, Reply, Stamped};
use dc_rows::{pin, shrink};
use dc_table::{Pass, Shared};
use dc_walk::{Room, Why, walk_counted, walk_locked};
use std::alloc::Global;
use std::sync::Wait;

/// A walk that needs five rows of a bucket of four takes none that it pinned itself, and leaves no pin.
pub(super) static FIVE_ROWS: [Step; 7] = [
    Step::Change(Act::Mkdir(b"/a"), Want::Done(2), 0),
    Step::Change(Act::Mkdir(b"/a/b"), Want::Done(3), 1),
    Step::Change(Act::Mkdir(b"/a/b/c"), Want::Done(4), 2),
    Step::Change(Act::Mkdir(b"/a/b/c/d"), Want::Done(5), 3),
    Step::CountLost(b"/a/b/c/d/e", Why::Miss(4)),
    Step::Look(b"/a/b/c/d", Want::Found(5, Kind::Dir), 4),
    Step::Shrink(5, 4),
];

/// A row that is pinned for somebody else stays pinned.
pub(super) static PINNED: [Step; 5] = [
    Step::Pin(b"a", 0),
    Step::Count(b"/a", Want::Refused(2), 0),
    Step::Shrink(4, 0),
    Step::Unpin(&[0]),
    Step::Shrink(4, 1),
];

/// What is not there is filled too, and a key that no row tells is a miss.
pub(super) static ONE_BY_ONE: [Step; 8] = [
    Step::Change(Act::Mkdir(b"/a"), Want::Done(2), 0),
    Step::Count(b"/a", Want::Found(2, Kind::Dir), 1),
    Step::Lost(b"/a/z", Why::Miss(1)),
    Step::Count(b"/a/z", Want::Refused(2), 1),
    Step::Look(b"/a/z", Want::Refused(2), 1),
    Step::Change(Act::Create(b"/a/z"), Want::Done(3), 1),
    Step::Look(b"/a/z", Want::Found(3, Kind::File), 2),
    Step::Shrink(5, 2),
];

static LINKED: [Step; 2] = [
    Step::Change(Act::Mkdir(b"/a"), Want::Done(2), 0),
    Step::Change(Act::Symlink(b"a", b"/l"), Want::Done(3), 1),
];

static FOLLOWED: [Step; 4] = [
    Step::Shrink(4, 0),
    Step::Count(b"/l", Want::Found(2, Kind::Dir), 2),
    Step::Look(b"/l", Want::Found(2, Kind::Dir), 2),
    Step::Shrink(4, 3),
];

/// Whether a walk under the lock follows links and fills no row, and one that fills rows follows them too.
fn asks_the_tree<R: Wait>(rt: &R, alloc: Global, shared: &Shared, pass: &mut Pass) -> bool
    requires { CanWalk shared.now pass.old }
{
    let look = Call::Look {
        base: 1,
        path: b"/l",
        follow: Follow::Yes,
    };
    let stat = Call::Stat {
        base: 1,
        path: b"/l/",
    };
    let linked = play(rt, alloc, shared, pass, &LINKED);
    let found = walk_locked(shared, rt, pass, &look);
    let followed = play(rt, alloc, shared, pass, &FOLLOWED);
    let counted = walk_locked(shared, rt, pass, &stat);
    linked.is_none()
        && followed.is_none()
        && is_told(&found, &Reply::Found(2, Kind::Dir))
        && is_told(&counted, &Reply::Stat(2, Kind::Dir, 0))
}

/// Whether an answer is this one after two changes.
fn is_told(found: &Stamped, reply: &Reply) -> bool {
    found.at == 2 && found.reply == *reply
}

#[test]
fn the_tree_itself_is_asked(rt: HostRuntime) {
    let (shared, mut p) = Shared::new(rt.alloc(), 1, 16).expect(&rt, "memory");
    assert!(rt; asks_the_tree(&rt, rt.alloc(), &shared, &mut p));
}

/// A row that was emptied is filled again.
pub(super) static FILLED_AGAIN: [Step; 7] = [
    Step::Change(Act::Mkdir(b"/a"), Want::Done(2), 0),
    Step::Count(b"/a", Want::Found(2, Kind::Dir), 1),
    Step::Shrink(1, 1),
    Step::Lost(b"/a", Why::Miss(0)),
    Step::Count(b"/a", Want::Found(2, Kind::Dir), 1),
    Step::Look(b"/a", Want::Found(2, Kind::Dir), 1),
    Step::Shrink(4, 1),
];

/// Whether a walk that comes to no row takes no pin back, though its room has the rows of an earlier one.
fn takes_none_back<R: Wait>(rt: &R, alloc: Global, shared: &Shared, pass: &mut Pass) -> Option<bool>
    requires { CanWalk shared.now pass.old }
{
    let mut room = Room::new();
    let (absent, root) = (from_root(b"/a")?, from_root(b"/")?);
    let key = HashedKey::new(in_root(b"a")?);
    let found = Some(walk_counted(shared, rt, alloc, pass, &mut room, absent));
    let pinned = matches!(pin(shared, rt, alloc, pass, &key), Ok(Some(0)));
    let led = Some(walk_counted(shared, rt, alloc, pass, &mut room, root));
    let walked = is_answered(&found, &Reply::Refused(2), 0) && is_root_at(&led, 0);
    Some(walked && pinned && shrink(shared, rt, pass, 4) == 0)
}

#[test]
fn a_walk_without_rows_takes_no_pin_back(rt: HostRuntime) {
    let (shared, mut p) = Shared::new(rt.alloc(), 1, 16).expect(&rt, "memory");
    assert!(rt; takes_none_back(&rt, rt.alloc(), &shared, &mut p) == Some(true));
}
