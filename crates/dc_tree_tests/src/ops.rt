//! Tests of plans and reads over the stores: the keys of plans, and that all that answers calls answers alike. Replies
//! by values from outside are in examples/rows, the most names of a file in the case full_file of examples/served.

ghost use Rattle.std.specs.Prelude.{IfOk};
ghost use Rattle.dc_ops.specs.Plans.{CanCarry};

use crate::calls::Ask;
use dc_names::NoMemory;
use dc_ops::{Plan, ask, carry, plan, seek};
use dc_plain::{Call, Key, Label, Reply, Sort};
use dc_store::{SlabStore, Store};
use std::alloc::Global;
use std::test::Fail;

mod stores_agree;
mod whereabouts;

/// The plan of a change on a store of at most 16 inodes. A read has none.
fn planned<'a, S: Store>(store: &S, call: &Call<'a>) -> Result<Plan<'a>, Reply>
    ensures { IfOk result (λ plan. CanCarry plan (S.tree store.now)) }
{
    match call.sort() {
        Sort::Change => plan(store, call, 16),
        Sort::Sought | Sort::Told => Err(Reply::Unit),
    }
}

/// What a call answers, and makes of the store.
fn answered<S: Store>(alloc: Global, store: &mut S, call: &Call) -> Result<Reply, NoMemory> {
    match call.sort() {
        Sort::Sought => Ok(seek(store, call)),
        Sort::Told => ask(alloc, store, call),
        Sort::Change => match plan(store, call, 16) {
            Ok(plan) => carry(alloc, store, plan),
            Err(reply) => Ok(reply),
        },
    }
}

/// The number of a key, and a letter for its label: the first of a name, `.` for dot-dot, `=` for a text.
fn shown(key: &Key) -> (u64, u8) {
    match key.label {
        Label::Name(name) => (key.number, name.bytes()[0]),
        Label::DotDot => (key.number, b'.'),
        Label::Text => (key.number, b'='),
    }
}

/// Changes, and the keys that each of them touches.
static KEYS: [(Ask<'static>, &[(u64, u8)]); 10] = [
    (Ask::Mkdir(b"/a"), &[(1, b'a'), (2, b'.')]),
    (Ask::Mkdir(b"/b"), &[(1, b'b'), (3, b'.')]),
    (Ask::Create(b"/a/f"), &[(2, b'f')]),
    (Ask::Link(b"/a/f", b"/b/g"), &[(3, b'g')]),
    (Ask::Symlink(b"f", b"/a/l"), &[(2, b'l'), (5, b'=')]),
    (Ask::Unlink(b"/a/f"), &[(2, b'f')]),
    (
        Ask::Rename(b"/b/g", b"/a/l"),
        &[(3, b'g'), (2, b'l'), (5, b'=')],
    ),
    (
        Ask::Rename(b"/b", b"/a/c"),
        &[(1, b'b'), (2, b'c'), (3, b'.')],
    ),
    (Ask::Exchange(b"/a/c", b"/a/l"), &[(2, b'c'), (2, b'l')]),
    (Ask::Rmdir(b"/a/l"), &[(2, b'l'), (3, b'.')]),
];

/// Makes a change, and says whether it touches these keys.
fn touches<S: Store>(
    alloc: Global,
    store: &mut S,
    call: &Call,
    keys: &[(u64, u8)],
) -> Result<bool, NoMemory> {
    let Ok(planned) = planned(store, call) else {
        return Ok(false);
    };
    let same = planned.keys().iter().map(shown).eq(keys.iter().copied());
    carry(alloc, store, planned)?;
    Ok(same)
}

/// Makes the changes, and fails if one touches other keys.
fn touch_all(alloc: Global) -> Result<(), Fail> {
    let mut store = SlabStore::new(alloc)?;
    for (ask, keys) in KEYS.iter() {
        if !touches(alloc, &mut store, &ask.call(), keys)? {
            return Err(Fail::from(*keys));
        }
    }
    Ok(())
}

#[test]
fn keys_of_plans(rt: HostRuntime) -> Result<(), Fail> {
    touch_all(rt.alloc())
}
