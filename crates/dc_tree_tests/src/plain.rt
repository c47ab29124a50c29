//! Tests of the slow machine, by replies and effects that come from outside.

ghost use Rattle.std.specs.Prelude.{◌≤◌};

use crate::calls::{Ask, Want};
use dc_names::{Kind, Last, Name, Refusal};
use dc_plain::{Key, Label, PlainTree, ROOT, Sort, Spot, Where, is_directory, present, refuse};
use std::alloc::Global;
use std::test::Fail;

mod facts;

/// A call, the reply to it, and whether it alters the tree.
type Row = (Ask<'static>, Want<'static>, bool);

/// Makes each call on a new tree, and fails if one has another reply, or alters the tree when it should
/// not, or the other way round.
fn answer_all(alloc: Global, max_inodes: u64, rows: &[Row]) -> Result<(), Fail>
    requires least { 1 ≤ max_inodes }
    requires most { max_inodes ≤ 1048576 }
{
    let mut tree = PlainTree::new(alloc, max_inodes)?;
    for (i, (ask, want, alters)) in rows.iter().enumerate() {
        let call = ask.call();
        if tree.alters(alloc, &call)? != *alters || !want.is(&tree.apply(alloc, &call)?) {
            return Err(Fail::from(("row", i)));
        }
    }
    Ok(())
}

/// A slash and 255 letters.
const LONGEST: &[u8] = b"/\
    nnnnnnnnnnnnnnnnnnnnnnnnnnnnnnnnnnnnnnnnnnnnnnnnnnnnnnnnnnnnnnnn\
    nnnnnnnnnnnnnnnnnnnnnnnnnnnnnnnnnnnnnnnnnnnnnnnnnnnnnnnnnnnnnnnn\
    nnnnnnnnnnnnnnnnnnnnnnnnnnnnnnnnnnnnnnnnnnnnnnnnnnnnnnnnnnnnnnnn\
    nnnnnnnnnnnnnnnnnnnnnnnnnnnnnnnnnnnnnnnnnnnnnnnnnnnnnnnnnnnnnnn";

/// Each call once, in one tree, and the longest name and text.
static EACH_CALL: [Row; 23] = [
    (Ask::Look(b"/f"), Want::Refused(2), false),
    (Ask::Mkdir(b"/d/"), Want::Done(2), true),
    (Ask::Create(b"/d/f"), Want::Done(3), true),
    (Ask::Link(b"/d/f", b"/g"), Want::Done(3), true),
    (Ask::Symlink(b"./d", b"/s"), Want::Done(4), true),
    (Ask::Look(b"/s/f"), Want::Found(3, Kind::File), false),
    (Ask::Kept(b"/s"), Want::Found(4, Kind::Link), false),
    (Ask::Start(b"/s"), Want::Found(2, Kind::Dir), false),
    (Ask::Readlink(b"/s"), Want::Text(b"./d"), false),
    (Ask::List(b"/"), Want::Names(&[b"d", b"g", b"s"]), false),
    (Ask::Stat(b"/g"), Want::Stat(3, Kind::File, 2), false),
    (Ask::Unlink(b"/g"), Want::Unit, true),
    (Ask::Rename(b"/d/f", b"/f"), Want::Unit, true),
    (Ask::Rename(b"/f", b"/f"), Want::Unit, false),
    (Ask::Create(b"/f"), Want::Refused(17), false),
    (Ask::Free(b"/f", b"/d"), Want::Refused(17), false),
    (Ask::Exchange(b"/f", b"/d"), Want::Unit, true),
    (Ask::Look(b"/d"), Want::Found(3, Kind::File), false),
    (Ask::Exchange(b"/d", b"/f"), Want::Unit, true),
    (Ask::Rmdir(b"/d"), Want::Unit, true),
    (Ask::Mkdir(LONGEST), Want::Done(5), true),
    (Ask::Symlink(&[b'/'; 4095], b"/t"), Want::Done(6), true),
    (Ask::ListIn(2), Want::Refused(2), false),
];

static NO_SPACE: [Row; 1] = [(Ask::Create(b"/f"), Want::Refused(28), false)];

#[test]
fn answers_each_call(rt: HostRuntime) -> Result<(), Fail> {
    answer_all(rt.alloc(), 16, &EACH_CALL)?;
    answer_all(rt.alloc(), 1, &NO_SPACE)
}

/// Whether directory and name give the place of the name, and its key.
fn is_told(dir: u64, name: Name<'_>) -> bool {
    let last = Last::Normal(name);
    let at = Where {
        dir,
        last,
        slash: false,
    };
    let spot = Spot { dir, name };
    let key = Key::from(spot);
    last.name_or(Refusal::Exists) == Ok(name)
        && at.spot(name) == spot
        && key.number == dir
        && key.label.bytes() == name.bytes()
}

static SORTS: [(Ask<'static>, Sort); 3] = [
    (Ask::Look(b"/"), Sort::Sought),
    (Ask::List(b"/"), Sort::Told),
    (Ask::Rmdir(b"/"), Sort::Change),
];

/// Whether keys, and refusals if there is a reason, are what they should be.
fn are_told() -> bool {
    let own = Key::own(7, Kind::Dir).map(|key| key.label);
    Name::new(b"a").is_some_and(|name| is_told(7, name))
        && own == Some(Label::DotDot)
        && Key::own(7, Kind::File).is_none()
        && Key::default().number == 0
        && is_directory(ROOT)
        && refuse(true, Refusal::Busy) == Err(Refusal::Busy)
        && present(None, Refusal::NotFound) == Err(Refusal::NotFound)
}

#[test]
fn tells_keys_and_sorts(rt: HostRuntime) {
    assert!(rt; are_told());
    for (ask, sort) in SORTS.iter() {
        assert!(rt; ask.call().sort() == *sort);
    }
}
