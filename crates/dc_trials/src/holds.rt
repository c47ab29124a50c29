//! A hold's calls, as a program in C makes them.

use crate::answers::mkdir;
use crate::steps::{Act, call_of};
use dc_cache::{Follow, ROOT, Reply};
use dc_hold::{
    Found, Gone, Hold, Status, flags_of, follow_of, put_names, put_text, told_change, told_fast,
    told_gone, told_read, told_tried,
};
use std::alloc::Global;

fn found(number: u64, kind: u32, count: u64, at: u64) -> Found {
    Found {
        number,
        count,
        at,
        kind,
        why: 0,
    }
}

/// Whether a directory that was made first has no row, then is found, and has its row from then on.
fn has_a_row_once_it_is_found(alloc: Global, hold: &mut Hold) -> bool {
    let before = told_fast(&hold.look_fast(ROOT, b"/a", Follow::Yes));
    let tried = told_tried(&hold.try_look(alloc, ROOT, b"/a", Follow::Yes));
    let fast = told_fast(&hold.look_fast(ROOT, b"/a", Follow::Yes));
    let missed = before.status == Status::Again && before.found.why == 1;
    let is_found = tried.status == Status::Done && tried.found == found(2, 1, 0, 1);
    missed && is_found && fast == tried
}

/// Whether a name that is nowhere is refused, and has its row from then on.
fn has_a_row_once_it_is_resolved(alloc: Global, hold: &mut Hold) -> bool {
    let tried = told_tried(&hold.try_resolve(alloc, ROOT, b"/b", Follow::Yes));
    let fast = told_fast(&hold.look_fast(ROOT, b"/b", Follow::Yes));
    let is_refused = tried.status == Status::Refused(2) && tried.found == found(0, 0, 0, 1);
    is_refused && fast == tried
}

/// Whether a directory is made as the first change.
fn is_made_first(alloc: Global, hold: &mut Hold) -> bool {
    let made = told_change(&hold.try_change(alloc, &mkdir(b"/a")));
    made.status == Status::Done && made.found == found(2, 0, 0, 0)
}

/// Whether a text that is no path is refused.
fn is_refused(hold: &mut Hold) -> bool {
    let fast = told_fast(&hold.look_fast(ROOT, b"", Follow::Yes));
    fast.status == Status::Refused(2) && fast.status.number() == 2
}

/// Whether the root's one entry is counted.
fn is_counted(hold: &mut Hold) -> bool {
    told_tried(&hold.try_stat(ROOT, b"/")).found == found(1, 1, 1, 1)
}

/// Whether a hold learns of one change alone, and empties the two rows that are filled.
fn learns_and_empties(hold: &mut Hold) -> bool {
    let learns = hold.learn(1) == (true, 1) && hold.learn(2) == (false, 1);
    learns && hold.try_shrink(9) == Some(2)
}

#[test]
fn a_directory_is_made_and_found(rt: HostRuntime) {
    let mut hold = Hold::new(rt.alloc(), 16, 16, 32).expect(&rt, "memory");
    assert!(rt; is_made_first(rt.alloc(), &mut hold));
    assert!(rt; has_a_row_once_it_is_found(rt.alloc(), &mut hold));
    assert!(rt; has_a_row_once_it_is_resolved(rt.alloc(), &mut hold));
    assert!(rt; is_refused(&mut hold) && is_counted(&mut hold));
    assert!(rt; learns_and_empties(&mut hold));
}

/// A file with two names, a directory, and a link to that.
static MADE: [Act<'static>; 4] = [
    Act::Create(b"/f"),
    Act::Link(b"/f", b"/g"),
    Act::Mkdir(b"/d"),
    Act::Symlink(b"./d", b"/s"),
];

/// Changes of them, and the number, the kind and the last that each tells of what its name lost.
static LOST: [(Act<'static>, u64, u32, u32); 5] = [
    (Act::Rename(b"/f", b"/g"), 0, 0, 0),
    (Act::Unlink(b"/f"), 2, 2, 0),
    (Act::Rename(b"/s", b"/g"), 2, 2, 1),
    (Act::Unlink(b"/d"), 0, 0, 0),
    (Act::Rmdir(b"/d"), 3, 1, 1),
];

/// Whether a hold makes a change.
fn is_made(alloc: Global, hold: &mut Hold, act: Act<'_>) -> bool {
    told_change(&hold.try_change(alloc, &call_of(act))).status == Status::Done
}

/// What a change tells of what its name lost, or `None` if the lock is held.
fn lost(alloc: Global, hold: &mut Hold, act: Act<'_>) -> Option<Gone> {
    let (_made, gone) = hold.try_change_telling(alloc, &call_of(act))?;
    Some(told_gone(gone))
}

/// Whether a change tells the number, the kind and the last of what its name lost.
fn loses(alloc: Global, hold: &mut Hold, act: Act<'_>, number: u64, kind: u32, last: u32) -> bool {
    let want = Gone { number, kind, last };
    lost(alloc, hold, act) == Some(want)
}

#[test]
fn what_a_name_lost_is_told(rt: HostRuntime) {
    let mut hold = Hold::new(rt.alloc(), 16, 16, 32).expect(&rt, "memory");
    for act in MADE.iter() {
        assert!(rt; is_made(rt.alloc(), &mut hold, *act));
    }
    for (act, number, kind, last) in LOST.iter() {
        assert!(rt; loses(rt.alloc(), &mut hold, *act, *number, *kind, *last));
    }
}

/// Puts the names in the root into a room, and says how much room they need. `None` if they aren't listed.
fn put_root(alloc: Global, hold: &mut Hold, room: &mut [u8]) -> Option<u64> {
    let tried = hold.try_list(alloc, ROOT, b"/");
    if told_read(&tried).status != Status::Done {
        return None;
    }
    let listed = tried?.ok()?;
    match &listed.reply {
        Reply::Names(names) => Some(put_names(room, names.as_slice())),
        _ => None,
    }
}

/// Whether a text fills a small room, and a shorter one its beginning.
fn are_put(room: &mut [u8; 5]) -> bool {
    put_text(room, b"xyzxyz");
    let filled = *room == *b"xyzxy";
    put_text(room, b"u");
    filled && *room == *b"uyzxy"
}

/// Whether a directory has no text.
fn is_no_link(alloc: Global, hold: &mut Hold) -> bool {
    let refused = told_read(&hold.try_readlink(alloc, ROOT, b"/ab"));
    refused.status == Status::Refused(22)
}

#[test]
fn texts_and_names_are_written(rt: HostRuntime) {
    let mut hold = Hold::new(rt.alloc(), 16, 16, 32).expect(&rt, "memory");
    for path in [b"/ab", b"/cd"] {
        assert!(rt; is_made(rt.alloc(), &mut hold, Act::Mkdir(path)));
    }
    let mut room = [9u8; 5];
    assert!(rt; put_root(rt.alloc(), &mut hold, &mut room) == Some(6));
    assert!(rt; room == [97, 98, 0, 9, 9] && are_put(&mut room));
    assert!(rt; is_no_link(rt.alloc(), &mut hold));
}

/// Whether either of two holds says that it shares its cache with the other, or neither.
fn share(one: &Hold, other: &Hold) -> (bool, bool) {
    (one.shares_with(other), other.shares_with(one))
}

/// Whether a hold shares its cache with one that is split off.
fn shares_with_its_own(hold: &mut Hold) -> bool {
    match hold.split() {
        Ok(other) => share(hold, &other) == (true, true),
        Err(_) => false,
    }
}

/// Whether a hold shares nothing with one of another cache.
fn shares_nothing(alloc: Global, hold: &Hold) -> bool {
    match Hold::new(alloc, 1, 16, 32) {
        Ok(other) => share(hold, &other) == (false, false),
        Err(_) => false,
    }
}

#[test]
fn numbers_have_bounds(rt: HostRuntime) {
    assert!(rt; Hold::new(rt.alloc(), 3, 16, 32).is_err());
    assert!(rt; follow_of(3).is_none() && flags_of(4).is_none());
}

#[test]
fn holds_know_their_cache(rt: HostRuntime) {
    let mut hold = Hold::new(rt.alloc(), 1, 16, 32).expect(&rt, "memory");
    assert!(rt; shares_with_its_own(&mut hold) && shares_nothing(rt.alloc(), &hold));
}
