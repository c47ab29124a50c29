//! Pages of a directory, told by the cache in the order of the bytes of its names.

ghost use Rattle.dc_cache.specs.Passes.{Fits};

use crate::answers::{Want, is};
use crate::steps::{Act, Step, play};
use dc_cache::{Dcache, Entries, Entry, Kind, Name, NoMemory, Pass, Stamped};
use std::alloc::Global;
use std::sync::Wait;
use std::test::Fail;

/// An entry as it should be told.
type Wanted = (&'static [u8], u64, Kind);

const D: Wanted = (b"d", 3, Kind::File);

const A: Wanted = (b"a", 2, Kind::Dir);

const B: Wanted = (b"b", 3, Kind::File);

const C: Wanted = (b"c", 4, Kind::Link);

const X: Wanted = (b"x", 6, Kind::File);

const ROOT_FOUND: Want<'static> = Want::Found(1, Kind::Dir);

/// Where a path starts, the path of a directory, the name that a page is behind, how many entries it has at
/// most, what the look-up is answered, and these entries.
type Row = (
    u64,
    &'static [u8],
    &'static [u8],
    usize,
    Want<'static>,
    &'static [Wanted],
);

/// After seven changes.
static ROWS: [Row; 15] = [
    // From the start, whole and cut, and through a link.
    (1, b"/", b"", 9, ROOT_FOUND, &[A, B, C, D]),
    (1, b".", b"", 2, ROOT_FOUND, &[A, B]),
    (1, b"/c", b"", 2, Want::Found(2, Kind::Dir), &[X]),
    // Behind a name that stands, one that never stood, and one that is gone.
    (1, b"/", b"a", 1, ROOT_FOUND, &[B]),
    (1, b"/", b"aa", 2, ROOT_FOUND, &[B, C]),
    (1, b"/", b"bb", 2, ROOT_FOUND, &[C, D]),
    // The last page, and what is behind it.
    (1, b"/", b"c", 2, ROOT_FOUND, &[D]),
    (1, b"/", b"d", 2, ROOT_FOUND, &[]),
    // None is asked for.
    (1, b"/", b"", 0, ROOT_FOUND, &[]),
    // A file, a directory that is gone, as path and as base, and texts that are no paths.
    (1, b"/b", b"", 2, Want::Refused(20), &[]),
    (1, b"/bb", b"", 2, Want::Refused(2), &[]),
    (5, b".", b"", 2, Want::Refused(2), &[]),
    (1, b"", b"", 2, Want::Refused(2), &[]),
    (1, b"/\0", b"", 2, Want::Refused(22), &[]),
    (2, b"..", b"a", 1, ROOT_FOUND, &[B]),
];

/// Whether these are the entries that were told.
fn are_entries(page: &[Entry], want: &[Wanted]) -> bool {
    let mut pairs = page.iter().zip(want);
    page.len() == want.len()
        && pairs.all(|(entry, want)| (entry.name.as_slice(), entry.number, entry.kind) == *want)
}

/// Whether a page was told so.
fn is_told(
    told: &Result<(Stamped, Vec<Entry>), NoMemory>,
    found: Want<'_>,
    want: &[Wanted],
) -> bool {
    match told {
        Ok((stamped, page)) => is(stamped, found, 7) && are_entries(page, want),
        Err(NoMemory) => false,
    }
}

/// Whether both calls tell a page so.
fn is_right<R: Wait>(rt: &R, alloc: Global, cache: &Dcache, pass: &mut Pass, row: &Row) -> bool
    requires { Fits cache.now pass.old }
    ensures { Fits cache.now pass.new }
{
    let (base, path, after, most, found, want) = *row;
    let asked = Entries {
        base,
        path,
        after: Name::new(after),
        most,
    };
    let waited = cache.entries(rt, alloc, pass, asked);
    match cache.try_entries(alloc, pass, asked) {
        Some(tried) => is_told(&waited, found, want) && is_told(&tried, found, want),
        None => false,
    }
}

/// What stands before pages are asked for: `bb` came and went.
static STANDING: [Step<'static>; 7] = [
    Step::Change(Act::Mkdir(b"/a"), Want::Done(2), 0),
    Step::Change(Act::Create(b"/b"), Want::Done(3), 1),
    Step::Change(Act::Symlink(b"a", b"/c"), Want::Done(4), 2),
    Step::Change(Act::Link(b"/b", b"/d"), Want::Done(3), 3),
    Step::Change(Act::Mkdir(b"/bb"), Want::Done(5), 4),
    Step::Change(Act::Rmdir(b"/bb"), Want::Unit, 5),
    Step::Change(Act::Create(b"/a/x"), Want::Done(6), 6),
];

/// Fails with the place of the first row that is told otherwise.
fn tell_all<R: Wait>(rt: &R, alloc: Global, cache: &Dcache, pass: &mut Pass) -> Result<(), Fail>
    requires { Fits cache.now pass.old }
    ensures { Fits cache.now pass.new }
{
    play(rt, alloc, cache, pass, &STANDING)?;
    for (place, row) in ROWS.iter().enumerate() {
        if !is_right(rt, alloc, cache, pass, row) {
            return Err(Fail::from(("row", place)));
        }
    }
    Ok(())
}

#[test]
fn pages_are_told_in_order(rt: HostRuntime) -> Result<(), Fail> {
    let alloc = rt.alloc();
    let (cache, mut pass) = Dcache::new(alloc, 4, 16)?;
    tell_all(&rt, alloc, &cache, &mut pass)
}
