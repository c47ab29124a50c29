//! Pages of a directory, in the order of the bytes of its names.
use super::{Step, To, answers_again, new_slab};
use dc_names::{Kind, Name, NoMemory};
use dc_store::{Entry, SlabStore};
use std::alloc::Global;
use std::test::Fail;

const FILE: Option<Kind> = Some(Kind::File);

/// What stands before pages are asked for: `gone` came and went.
static STANDING: [Step; 12] = [
    Step::Add(1, b"a", To::Dir, Some(2)),
    Step::Add(1, b"b", To::File, Some(3)),
    Step::Add(1, b"c", To::Link(b"a/b"), Some(4)),
    Step::Add(1, b"d", To::Same(3), Some(3)),
    Step::Add(1, b"gone", To::File, Some(5)),
    Step::Drop(1, b"gone", true),
    Step::Add(2, b"directory_b", To::File, Some(6)),
    Step::Add(2, b"directory_a", To::File, Some(7)),
    Step::Add(2, b"director", To::File, Some(8)),
    Step::Add(2, b"\xff", To::File, Some(9)),
    Step::Add(2, b"directly", To::File, Some(10)),
    Step::Seen(3, FILE, None, 2),
];

/// An entry as it should be told.
type Wanted = (&'static [u8], u64, Kind);

const D: Wanted = (b"d", 3, Kind::File);

const A: Wanted = (b"a", 2, Kind::Dir);

const B: Wanted = (b"b", 3, Kind::File);

const C: Wanted = (b"c", 4, Kind::Link);

const LY: Wanted = (b"directly", 10, Kind::File);

const OR: Wanted = (b"director", 8, Kind::File);

const ORY_A: Wanted = (b"directory_a", 7, Kind::File);

const ORY_B: Wanted = (b"directory_b", 6, Kind::File);

const TOP: Wanted = (b"\xff", 9, Kind::File);

/// A page: its directory, the name that it is behind, how many entries it has at most, and these.
type Row = (u64, &'static [u8], usize, &'static [Wanted]);

static ROWS: [Row; 15] = [
    // From the start, whole and cut.
    (1, b"", 9, &[A, B, C, D]),
    (1, b"", 1, &[A]),
    (1, b"", 4, &[A, B, C, D]),
    // Behind a name that stands.
    (1, b"a", 2, &[B, C]),
    (1, b"c", 2, &[D]),
    // Behind names that don't.
    (1, b"Z", 1, &[A]),
    (1, b"aa", 1, &[B]),
    (1, b"gone", 2, &[]),
    // Behind the last.
    (1, b"d", 2, &[]),
    // None at all.
    (1, b"", 0, &[]),
    // Names whose first eight bytes are the same, and a byte above all letters.
    (2, b"", 9, &[LY, OR, ORY_A, ORY_B, TOP]),
    (2, b"director", 2, &[ORY_A, ORY_B]),
    (2, b"directory", 1, &[ORY_A]),
    // Of a file, and where nothing lives.
    (3, b"", 3, &[]),
    (5, b"", 3, &[]),
];

/// A page, asked for once more if memory is refused.
fn page_again(
    store: &SlabStore,
    alloc: Global,
    dir: u64,
    after: &[u8],
    most: usize,
) -> Result<Vec<Entry>, NoMemory> {
    let after = Name::new(after);
    match store.page(alloc, dir, after, most) {
        Ok(page) => Ok(page),
        Err(NoMemory) => store.page(alloc, dir, after, most),
    }
}

/// Whether these are the entries that were told.
fn are_entries(page: &[Entry], want: &[Wanted]) -> bool {
    let mut pairs = page.iter().zip(want);
    page.len() == want.len()
        && pairs.all(|(entry, want)| (entry.name.as_slice(), entry.number, entry.kind) == *want)
}

/// Fails with the place of the first row that is told otherwise.
fn tell_all(alloc: Global) -> Result<(), Fail> {
    let mut store = new_slab(alloc)?;
    for step in STANDING.iter() {
        if !answers_again(&mut store, alloc, step)? {
            return Err(Fail::from("a step"));
        }
    }
    for (place, (dir, after, most, want)) in ROWS.iter().enumerate() {
        let page = page_again(&store, alloc, *dir, after, *most)?;
        if !are_entries(&page, want) {
            return Err(Fail::from(("row", place)));
        }
    }
    Ok(())
}

#[test]
fn pages_are_told_in_order(rt: HostRuntime) -> Result<(), Fail> {
    tell_all(rt.alloc())
}
