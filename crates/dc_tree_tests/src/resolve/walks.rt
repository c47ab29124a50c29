//! Where paths lead, over fixed answers.

use super::{Asked, NoPath, PARENTS, ROWS, TEXTS, new_fixed};
use dc_names::{Kind, Refusal, parse};
use dc_plain::Follow;
use dc_resolve::{Walked, walk, walk_alone};
use std::test::Fail;

/// Where a path leads.
#[derive(Clone, Copy)]
enum Leads {
    To(u64, Kind),
    Refused(Refusal),
    Stops,
}

impl Leads {
    /// Whether a walk came there.
    fn is(self, walked: Result<Walked, NoPath>) -> bool {
        match (self, walked) {
            (Leads::To(number, kind), Ok(Walked::Found(found))) => found == (number, kind),
            (Leads::Refused(refusal), Ok(Walked::Refused(found))) => refusal == found,
            (Leads::Stops, Err(NoPath)) => true,
            _ => false,
        }
    }
}

/// A starting number, a path, whether a last link is followed, and where that leads.
static WALKS: [(u64, &[u8], Follow, Leads); 36] = [
    (1, b"/d/f", Follow::Yes, Leads::To(3, Kind::File)),
    (1, b"//d//f", Follow::Yes, Leads::To(3, Kind::File)),
    (2, b"f", Follow::Yes, Leads::To(3, Kind::File)),
    (4, b"../f", Follow::Yes, Leads::To(3, Kind::File)),
    (4, b".", Follow::Yes, Leads::To(4, Kind::Dir)),
    (1, b"/", Follow::Dir, Leads::To(1, Kind::Dir)),
    (1, b"/../..", Follow::Yes, Leads::To(1, Kind::Dir)),
    (
        1,
        b"/d/f/",
        Follow::Yes,
        Leads::Refused(Refusal::NotDirectory),
    ),
    (
        1,
        b"/d/f/e",
        Follow::Yes,
        Leads::Refused(Refusal::NotDirectory),
    ),
    (
        1,
        b"/d/f/..",
        Follow::Yes,
        Leads::Refused(Refusal::NotDirectory),
    ),
    (
        1,
        b"/d/f",
        Follow::Dir,
        Leads::Refused(Refusal::NotDirectory),
    ),
    (
        1,
        b"/none/e",
        Follow::Yes,
        Leads::Refused(Refusal::NotFound),
    ),
    (1, b"/r", Follow::No, Leads::To(10, Kind::Link)),
    (1, b"/r", Follow::Yes, Leads::To(4, Kind::Dir)),
    (1, b"/r", Follow::Dir, Leads::To(4, Kind::Dir)),
    (1, b"/r/", Follow::No, Leads::To(4, Kind::Dir)),
    (1, b"/r/..", Follow::Yes, Leads::To(2, Kind::Dir)),
    (1, b"/d/a/.", Follow::Yes, Leads::To(4, Kind::Dir)),
    (1, b"/d/p", Follow::Yes, Leads::To(3, Kind::File)),
    (1, b"/d/q", Follow::Yes, Leads::To(3, Kind::File)),
    (
        1,
        b"/d/q/",
        Follow::No,
        Leads::Refused(Refusal::NotDirectory),
    ),
    (1, b"/d/s", Follow::No, Leads::To(16, Kind::Link)),
    (
        1,
        b"/d/s",
        Follow::Yes,
        Leads::Refused(Refusal::NotDirectory),
    ),
    (1, b"/x", Follow::Yes, Leads::Refused(Refusal::NotFound)),
    (1, b"/l", Follow::Yes, Leads::Refused(Refusal::TooManyLinks)),
    (1, b"/bad", Follow::Yes, Leads::Stops),
    (1, b"/c8", Follow::Yes, Leads::To(2, Kind::Dir)),
    // Forty links, and one more.
    (
        1,
        b"/c8/../c8/../c8/../c8/../c8",
        Follow::Yes,
        Leads::To(2, Kind::Dir),
    ),
    (
        1,
        b"/c8/../c8/../c8/../c8/../c9",
        Follow::Yes,
        Leads::Refused(Refusal::TooManyLinks),
    ),
    (1, b"/c9", Follow::No, Leads::To(29, Kind::Link)),
    (1, b"/c7/q", Follow::Yes, Leads::To(3, Kind::File)),
    (
        1,
        b"/c8/../c8/../c8/../c8/../c7/q",
        Follow::Yes,
        Leads::To(3, Kind::File),
    ),
    (
        1,
        b"/c8/../c8/../c8/../c8/../c8/q",
        Follow::Yes,
        Leads::Refused(Refusal::TooManyLinks),
    ),
    (1, &[b'n'; 255], Follow::Yes, Leads::To(30, Kind::File)),
    (3, b"f", Follow::Yes, Leads::Refused(Refusal::NotFound)),
    (99, b"/d/f", Follow::Yes, Leads::To(3, Kind::File)),
];

/// Fails if a path leads elsewhere.
fn walk_all() -> Result<(), Fail> {
    for (base, path, follow, want) in WALKS.iter() {
        let mut finder = new_fixed(&ROWS, &PARENTS, &TEXTS);
        if !want.is(walk(&mut finder, *base, parse(path)?, *follow)) {
            return Err(Fail::from(*path));
        }
    }
    Ok(())
}

#[test]
fn walks(_rt: HostRuntime) -> Result<(), Fail> {
    walk_all()
}

/// A walk, and what it asks.
static ASKED: [(u64, &[u8], Follow, &[Asked]); 13] = [
    (
        4,
        b"../q/.",
        Follow::No,
        &[(4, b'.'), (4, b'.'), (2, b'q'), (15, b'@'), (2, b'f')],
    ),
    (4, b".", Follow::No, &[(4, b'.')]),
    (1, b"d/..", Follow::No, &[(1, b'd'), (2, b'.')]),
    (4, b"/../d", Follow::No, &[(1, b'd')]),
    (1, b".././", Follow::No, &[]),
    (1, b"/d/q", Follow::No, &[(1, b'd'), (2, b'q')]),
    (
        1,
        b"/d/q",
        Follow::Yes,
        &[(1, b'd'), (2, b'q'), (15, b'@'), (2, b'f')],
    ),
    (
        1,
        b"/r",
        Follow::Yes,
        &[(1, b'r'), (10, b'@'), (1, b'd'), (2, b'e')],
    ),
    (
        99,
        b"/r/",
        Follow::Dir,
        &[(1, b'r'), (10, b'@'), (1, b'd'), (2, b'e')],
    ),
    (
        4,
        b"../p",
        Follow::Dir,
        &[
            (4, b'.'),
            (4, b'.'),
            (2, b'p'),
            (12, b'@'),
            (2, b'e'),
            (4, b'.'),
            (2, b'f'),
        ],
    ),
    (1, b"/x/f", Follow::Yes, &[(1, b'x'), (14, b'@'), (1, b'n')]),
    (1, b"/d/f/../e", Follow::Dir, &[(1, b'd'), (2, b'f')]),
    (99, b"f", Follow::Yes, &[(99, b'.')]),
];

/// Fails if a walk asks something else.
fn ask_all() -> Result<(), Fail> {
    for (base, path, follow, want) in ASKED.iter() {
        let mut finder = new_fixed(&ROWS, &PARENTS, &TEXTS);
        let _ = walk(&mut finder, *base, parse(path)?, *follow);
        if finder.asked.as_slice() != *want {
            return Err(Fail::from(*path));
        }
    }
    Ok(())
}

#[test]
fn walks_ask_in_order(_rt: HostRuntime) -> Result<(), Fail> {
    ask_all()
}

#[test]
fn walks_alone_to_the_root(rt: HostRuntime) -> Result<(), Fail> {
    let path = parse(b"/../.")?;
    assert!(rt; walk_alone(4, path, Follow::Dir) == Walked::Found((1, Kind::Dir)));
    Ok(())
}
