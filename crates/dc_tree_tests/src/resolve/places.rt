//! Where the last part of a path stands, over fixed answers.

use super::{Asked, NoPath, PARENTS, ROWS, TEXTS, new_fixed};
use dc_names::{Last, Refusal, parse};
use dc_resolve::{Placed, before_last_part, place, place_in};
use std::test::Fail;

/// A last part that is no name.
#[derive(Clone, Copy)]
enum NoName {
    Root,
    Dot,
    DotDot,
}

impl NoName {
    /// The part itself.
    fn last(self) -> Last<'static> {
        match self {
            NoName::Root => Last::Root,
            NoName::Dot => Last::Dot,
            NoName::DotDot => Last::DotDot,
        }
    }
}

/// Where a last part is to be looked up.
#[derive(Clone, Copy)]
enum At {
    /// A directory, a name in it, and whether a slash follows.
    Name(u64, &'static [u8], bool),
    /// A directory, and a part that is no name.
    Last(u64, NoName),
    Refused(Refusal),
    Stopped,
}

impl At {
    /// Whether a last part is to be looked up there.
    fn is(self, placed: Result<Placed<'_>, NoPath>) -> bool {
        match (self, placed) {
            (At::Name(dir, name, slash), Ok(Placed::At(at))) => {
                let is_name = matches!(at.last, Last::Normal(last) if last.bytes() == name);
                is_name && at.dir == dir && at.slash == slash
            }
            (At::Last(dir, last), Ok(Placed::At(at))) => {
                at.dir == dir && at.last == last.last() && !at.slash
            }
            (At::Refused(refusal), Ok(Placed::Refused(found))) => refusal == found,
            (At::Stopped, Err(NoPath)) => true,
            _ => false,
        }
    }
}

/// A starting number, a path, and where its last part is to be looked up.
static PLACES: [(u64, &[u8], At); 18] = [
    (1, b"/d/f", At::Name(2, b"f", false)),
    (1, b"/d/new//", At::Name(2, b"new", true)),
    (1, b"///", At::Last(1, NoName::Root)),
    (1, b"/d/..", At::Last(2, NoName::DotDot)),
    (2, b"a///b/.//", At::Refused(Refusal::NotFound)),
    (1, b"d//e///", At::Name(2, b"e", true)),
    (2, b"f", At::Name(2, b"f", false)),
    (4, b".", At::Last(4, NoName::Dot)),
    (4, b"../g", At::Name(2, b"g", false)),
    (1, b"/l", At::Name(1, b"l", false)),
    (1, b"/r/g", At::Name(4, b"g", false)),
    (1, b"/c8/g", At::Name(2, b"g", false)),
    (
        1,
        b"/c8/../c8/../c8/../c8/../c8/g",
        At::Name(2, b"g", false),
    ),
    (
        1,
        b"/c8/../c8/../c8/../c8/../c9/g",
        At::Refused(Refusal::TooManyLinks),
    ),
    (1, b"/d/q/g", At::Refused(Refusal::NotDirectory)),
    (1, b"/none/g", At::Refused(Refusal::NotFound)),
    (3, b"g", At::Refused(Refusal::NotFound)),
    (1, b"/bad/g", At::Stopped),
];

/// Fails if a last part is to be looked up elsewhere.
fn place_all() -> Result<(), Fail> {
    for (base, path, want) in PLACES.iter() {
        let mut finder = new_fixed(&ROWS, &PARENTS, &TEXTS);
        if !want.is(place(&mut finder, *base, parse(path)?)) {
            return Err(Fail::from(*path));
        }
    }
    Ok(())
}

#[test]
fn places(_rt: HostRuntime) -> Result<(), Fail> {
    place_all()
}

/// A path, and what is asked for it.
static ASKED: [(u64, &[u8], &[Asked]); 9] = [
    (1, b"/d/f", &[(1, b'd')]),
    (99, b"/d/q//", &[(1, b'd')]),
    (1, b"/l", &[]),
    (2, b"///", &[]),
    (2, b"/../x", &[]),
    (4, b".", &[(4, b'.')]),
    (4, b"../g", &[(4, b'.'), (4, b'.')]),
    (1, b"/r/g", &[(1, b'r'), (10, b'@'), (1, b'd'), (2, b'e')]),
    (1, b"/d/f/g/h", &[(1, b'd'), (2, b'f')]),
];

/// Fails if something else is asked.
fn ask_all() -> Result<(), Fail> {
    for (base, path, want) in ASKED.iter() {
        let mut finder = new_fixed(&ROWS, &PARENTS, &TEXTS);
        let _ = place(&mut finder, *base, parse(path)?);
        if finder.asked.as_slice() != *want {
            return Err(Fail::from(*path));
        }
    }
    Ok(())
}

#[test]
fn places_ask_in_order(_rt: HostRuntime) -> Result<(), Fail> {
    ask_all()
}

/// A path, the bytes before its last component, and that component if it is a name, which directory 7 is
/// known to hold, with whether a slash follows.
static FRONTS: [(&[u8], &[u8], Option<(&[u8], bool)>); 8] = [
    (b"/d/f", b"/d/", Some((b"f", false))),
    (b"d//e///", b"d//", Some((b"e", true))),
    (b"../g", b"../", Some((b"g", false))),
    (b"/l", b"/", Some((b"l", false))),
    (b"/d/..", b"/d/", None),
    (b"f", b"", None),
    (b"f//", b"", None),
    (b"///", b"", None),
];

/// Where a path's last component stands in directory 7, and whether a slash follows, if it is a name.
fn name_in<'p>(path: &'p [u8], front: &[u8]) -> Option<(&'p [u8], bool)> {
    let at = place_in(parse(path).ok()?, front, 7)?;
    match at.last {
        Last::Normal(name) if at.dir == 7 => Some((name.bytes(), at.slash)),
        _ => None,
    }
}

/// Whether a path has this front, and its last component stands so in directory 7 if the front is known to
/// lead there, and not if another front is.
fn stands_so(path: &[u8], front: &[u8], want: Option<(&[u8], bool)>) -> bool {
    before_last_part(path) == front
        && name_in(path, front) == want
        && name_in(path, b"/other/").is_none()
}

#[test]
fn places_stand_in_a_known_directory(rt: HostRuntime) {
    for (path, front, want) in FRONTS.iter() {
        assert!(rt; stands_so(path, front, *want), "{path:?}");
    }
}
