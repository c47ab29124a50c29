//! Both stores, call by call.

ghost use Rattle.std.specs.Prelude.{◌≡◌, ◌≢◌, ◌&&◌, true, false, length, not, is_some, Some, IfSome, IsTrue};
ghost use Rattle.dc_plain.specs.Operations.{is_beneath};
ghost use Rattle.dc_plain.specs.Trees.{entry_number, is_live_directory};
ghost use Rattle.dc_plain.specs.Conditions.{CanBeNamed, is_full_directory};
ghost use Rattle.dc_store.specs.Added.{CanAdd};
ghost use Rattle.dc_plain.specs.Spots.{spot_at};

use dc_names::{Kind, Name, NoMemory, parse};
use dc_plain::{MOST_NAMES, NUMBER_LIMIT, Spot};
use dc_store::{MapStore, New, SlabStore, Store};
use std::alloc::Global;
use std::test::Fail;

mod pages;
mod refused;

/// Whether a name in a directory is free.
fn is_free<S: Store>(store: &S, dir: u64, name: Name<'_>) -> bool
    ensures { result ≡ (is_live_directory (S.tree store.now) dir
        && not (is_some (entry_number (S.tree store.now) (spot_at dir name.entry.bytes.now)))) }
{
    matches!(store.kind(dir), Some(Kind::Dir)) && store.find(dir, name).is_none()
}

fn may_be_named<S: Store>(store: &S, number: u64) -> bool
    ensures { result ≡ true → CanBeNamed (S.tree store.now) number }
{
    matches!(store.kind(number), Some(Kind::File | Kind::Link)) && store.count(number) < MOST_NAMES
}

fn may_be_added<S: Store>(store: &S, new: New<'_>) -> bool
    ensures { result ≡ true → CanAdd (S.tree store.now) new.entry }
{
    match new {
        New::Dir | New::File | New::Link(_) => store.next() < NUMBER_LIMIT,
        New::Same(number) => may_be_named(store, number),
    }
}

/// Whether a directory is one in which entries stand.
fn is_full<S: Store>(store: &S, number: u64) -> bool
    ensures { result ≡ is_full_directory (S.tree store.now) number }
{
    matches!(store.kind(number), Some(Kind::Dir)) && store.count(number) != 0
}

/// Whether an inode is no directory, or is to stand in the root.
fn is_apart<S: Store>(store: &S, number: u64, to: u64) -> bool
    ensures { result ≡ true → (is_live_directory (S.tree store.now) number
        && is_beneath (length (S.tree store.now).inodes) (S.tree store.now) to number) ≡ false }
{
    !matches!(store.kind(number), Some(Kind::Dir)) || to == 1 && number != 1
}

/// Whether nothing stands at a name, or another inode that gives way.
fn gives_way<S: Store>(store: &S, to: u64, new: Name<'_>, number: u64) -> bool
    ensures other { result ≡ true →
        entry_number (S.tree store.now) (spot_at to new.entry.bytes.now) ≢ Some number }
    ensures gives_way { result ≡ true →
        IfSome (entry_number (S.tree store.now) (spot_at to new.entry.bytes.now))
        (λ m. IsTrue (not (is_full_directory (S.tree store.now) m))) }
{
    match store.find(to, new) {
        Some(there) => there != number && !is_full(store, there),
        None => true,
    }
}

/// Adds an entry, or answers `None` if it may not be added.
fn add_to<S: Store>(
    store: &mut S,
    alloc: Global,
    dir: u64,
    name: Name<'_>,
    new: New<'_>,
) -> Result<Option<u64>, NoMemory> {
    if !is_free(store, dir, name) || !may_be_added(store, new) {
        return Ok(None);
    }
    let number = store.add(alloc, dir, name, new)?;
    Ok(Some(number))
}

/// Drops an entry. Answers whether it may be dropped.
fn drop_from<S: Store>(store: &mut S, dir: u64, name: Name<'_>) -> bool {
    match store.find(dir, name) {
        Some(number) if !is_full(store, number) => {
            store.drop_entry(dir, name);
            true
        }
        _ => false,
    }
}

/// Moves an entry, a directory only into the root. Answers whether it may be moved.
fn move_to<S: Store>(
    store: &mut S,
    alloc: Global,
    old: Spot<'_>,
    new: Spot<'_>,
) -> Result<bool, NoMemory> {
    let Some(number) = store.find(old.dir, old.name) else {
        return Ok(false);
    };
    let stands = matches!(store.kind(new.dir), Some(Kind::Dir));
    if !stands
        || !is_apart(store, number, new.dir)
        || !gives_way(store, new.dir, new.name, number)
    {
        return Ok(false);
    }
    store.move_entry(alloc, old, new, number)?;
    Ok(true)
}

/// What a new entry leads to, with a link's text as it is.
#[derive(Clone, Copy)]
enum To<'a> {
    Dir,
    File,
    Link(&'a [u8]),
    Same(u64),
}

impl<'a> To<'a> {
    /// The new entry, as the stores take it. A text that is no path counts as out of memory.
    fn new_entry(self) -> Result<New<'a>, NoMemory> {
        match self {
            To::Dir => Ok(New::Dir),
            To::File => Ok(New::File),
            To::Same(number) => Ok(New::Same(number)),
            To::Link(text) => match parse(text) {
                Ok(text) => Ok(New::Link(text)),
                Err(_) => Err(NoMemory),
            },
        }
    }
}

/// A change with its answer, or what is seen between two changes.
#[derive(Clone, Copy)]
enum Step<'a> {
    Add(u64, &'a [u8], To<'a>, Option<u64>),
    Drop(u64, &'a [u8], bool),
    Move((u64, &'a [u8]), (u64, &'a [u8]), bool),
    /// A number's kind, parent and count.
    Seen(u64, Option<Kind>, Option<u64>, u64),
    Find(u64, &'a [u8], Option<u64>),
    Text(u64, Option<&'a [u8]>),
    List(u64, &'a [&'a [u8]]),
    /// The next number, and how many inodes live.
    Size(u64, u64),
}

fn named(text: &[u8]) -> Result<Name<'_>, NoMemory> {
    Name::new(text).ok_or(NoMemory)
}

fn spot<'a>((dir, name): (u64, &'a [u8])) -> Result<Spot<'a>, NoMemory> {
    Ok(Spot {
        dir,
        name: named(name)?,
    })
}

/// Whether these names stand in a directory.
fn holds<S: Store>(store: &S, alloc: Global, dir: u64, want: &[&[u8]]) -> Result<bool, NoMemory> {
    let names = store.list(alloc, dir)?;
    let mut pairs = names.iter().zip(want);
    Ok(names.len() == want.len() && pairs.all(|(name, want)| name.as_slice() == *want))
}

/// Whether an entry is added so.
fn adds<S: Store>(
    store: &mut S,
    alloc: Global,
    dir: u64,
    name: &[u8],
    new: To<'_>,
    want: Option<u64>,
) -> Result<bool, NoMemory> {
    let new = new.new_entry()?;
    Ok(add_to(store, alloc, dir, named(name)?, new)? == want)
}

/// Whether an entry moves so.
fn moves<S: Store>(
    store: &mut S,
    alloc: Global,
    old: (u64, &[u8]),
    new: (u64, &[u8]),
    want: bool,
) -> Result<bool, NoMemory> {
    Ok(move_to(store, alloc, spot(old)?, spot(new)?)? == want)
}

/// Whether a step answers so.
fn answers<S: Store>(store: &mut S, alloc: Global, step: &Step<'_>) -> Result<bool, NoMemory> {
    match step {
        Step::Add(dir, name, new, want) => adds(store, alloc, *dir, name, *new, *want),
        Step::Drop(dir, name, want) => Ok(drop_from(store, *dir, named(name)?) == *want),
        Step::Move(old, new, want) => moves(store, alloc, *old, *new, *want),
        read => tells(store, alloc, read),
    }
}

/// Whether a read answers so.
fn tells<S: Store>(store: &S, alloc: Global, step: &Step<'_>) -> Result<bool, NoMemory> {
    match step {
        Step::Seen(number, kind, parent, count) => {
            let seen = (
                store.kind(*number),
                store.parent(*number),
                store.count(*number),
            );
            Ok(seen == (*kind, *parent, *count))
        }
        Step::Find(dir, name, want) => Ok(store.find(*dir, named(name)?) == *want),
        Step::Text(number, want) => Ok(store.text(*number) == *want),
        Step::List(dir, want) => holds(store, alloc, *dir, want),
        Step::Size(next, live) => Ok((store.next(), store.live()) == (*next, *live)),
        Step::Add(..) | Step::Drop(..) | Step::Move(..) => Ok(false),
    }
}

fn new_map(alloc: Global) -> Result<MapStore, NoMemory> {
    match MapStore::new(alloc) {
        Ok(store) => Ok(store),
        Err(NoMemory) => MapStore::new(alloc),
    }
}

fn new_slab(alloc: Global) -> Result<SlabStore, NoMemory> {
    match SlabStore::new(alloc) {
        Ok(store) => Ok(store),
        Err(NoMemory) => SlabStore::new(alloc),
    }
}

/// The place of the first step of a new store of either kind that answers otherwise.
fn fails_at(alloc: Global, steps: &[Step<'_>]) -> Result<Option<usize>, NoMemory> {
    if let Some(place) = fails_in(&mut new_map(alloc)?, alloc, steps)? {
        return Ok(Some(place));
    }
    fails_in(&mut new_slab(alloc)?, alloc, steps)
}

/// Whether a step answers so. One that is refused memory is taken once more, and then answers as if it
/// had never been refused.
fn answers_again<S: Store>(
    store: &mut S,
    alloc: Global,
    step: &Step<'_>,
) -> Result<bool, NoMemory> {
    match answers(store, alloc, step) {
        Ok(right) => Ok(right),
        Err(NoMemory) => answers(store, alloc, step),
    }
}

/// The place of the first step that answers otherwise.
fn fails_in<S: Store>(
    store: &mut S,
    alloc: Global,
    steps: &[Step<'_>],
) -> Result<Option<usize>, NoMemory> {
    for (place, step) in steps.iter().enumerate() {
        if !answers_again(store, alloc, step)? {
            return Ok(Some(place));
        }
    }
    Ok(None)
}

const DIR: Option<Kind> = Some(Kind::Dir);

const FILE: Option<Kind> = Some(Kind::File);

const LINK: Option<Kind> = Some(Kind::Link);

static DIRECTORIES: [Step<'static>; 14] = [
    Step::Seen(1, DIR, Some(1), 0),
    Step::Size(2, 1),
    Step::Add(1, b"a", To::Dir, Some(2)),
    Step::Add(1, b"a", To::Dir, None),
    Step::Add(2, b"a", To::Dir, Some(3)),
    Step::Add(4, b"a", To::Dir, None),
    Step::Find(1, b"a", Some(2)),
    Step::Find(2, b"a", Some(3)),
    Step::Find(3, b"a", None),
    Step::Seen(1, DIR, Some(1), 1),
    Step::Seen(2, DIR, Some(1), 1),
    Step::Seen(3, DIR, Some(2), 0),
    Step::Seen(4, None, None, 0),
    Step::Size(4, 3),
];

static FURTHER_NAMES: [Step<'static>; 24] = [
    Step::Add(1, b"d", To::Dir, Some(2)),
    Step::Add(1, b"l", To::Link(b"d/x"), Some(3)),
    Step::Add(2, b"f", To::File, Some(4)),
    Step::Add(1, b"f", To::Same(4), Some(4)),
    // No further name for a directory.
    Step::Add(2, b"d", To::Same(2), None),
    Step::Find(1, b"f", Some(4)),
    Step::Find(2, b"f", Some(4)),
    Step::Text(3, Some(b"d/x")),
    Step::Text(4, None),
    Step::Seen(1, DIR, Some(1), 3),
    Step::Seen(2, DIR, Some(1), 1),
    Step::Seen(3, LINK, None, 1),
    Step::Seen(4, FILE, None, 2),
    Step::List(1, &[b"d", b"f", b"l"]),
    Step::Drop(1, b"d", false),
    Step::Drop(2, b"f", true),
    Step::Seen(4, FILE, None, 1),
    Step::Drop(1, b"f", true),
    Step::Drop(1, b"l", true),
    Step::Seen(4, None, None, 0),
    Step::Text(3, None),
    Step::List(1, &[b"d"]),
    Step::Drop(1, b"d", true),
    Step::Size(5, 1),
];

static FILES: [Step<'static>; 19] = [
    Step::Add(1, b"a", To::File, Some(2)),
    Step::Add(1, b"b", To::File, Some(3)),
    Step::Add(1, b"c", To::Same(3), Some(3)),
    Step::Add(1, b"d", To::Dir, Some(4)),
    Step::Move((1, b"a"), (4, b"a"), true),
    Step::List(4, &[b"a"]),
    // Over one of two names of another file, and then over its last.
    Step::Move((4, b"a"), (1, b"b"), true),
    Step::Find(4, b"a", None),
    Step::Find(1, b"b", Some(2)),
    Step::Seen(3, FILE, None, 1),
    Step::Move((1, b"b"), (1, b"c"), true),
    Step::Find(1, b"b", None),
    Step::Find(1, b"c", Some(2)),
    Step::Seen(1, DIR, Some(1), 2),
    Step::Seen(2, FILE, None, 1),
    Step::Seen(3, None, None, 0),
    Step::Seen(4, DIR, Some(1), 0),
    Step::List(1, &[b"c", b"d"]),
    Step::Size(5, 3),
];

static MOVED_DIRECTORY: [Step<'static>; 16] = [
    Step::Add(1, b"a", To::Dir, Some(2)),
    Step::Add(2, b"b", To::Dir, Some(3)),
    Step::Add(3, b"f", To::File, Some(4)),
    Step::Add(1, b"f", To::Dir, Some(5)),
    // A directory with an entry doesn't give way, an empty one does.
    Step::Move((1, b"f"), (1, b"a"), false),
    Step::Move((2, b"b"), (1, b"f"), true),
    Step::Find(2, b"b", None),
    Step::Find(1, b"f", Some(3)),
    Step::Find(3, b"f", Some(4)),
    Step::Seen(1, DIR, Some(1), 2),
    Step::Seen(2, DIR, Some(1), 0),
    Step::Seen(3, DIR, Some(1), 1),
    Step::Seen(4, FILE, None, 1),
    Step::Seen(5, None, None, 0),
    Step::List(1, &[b"a", b"f"]),
    Step::Size(6, 4),
];

const LONGEST_OLD: &[u8] = &[b'a'; 255];

const LONGEST_NEW: &[u8] = &[b'b'; 255];

const LONGEST_TEXT: &[u8] = &[b'/'; 4095];

static LONGEST: [Step<'static>; 10] = [
    Step::Add(1, LONGEST_OLD, To::Link(LONGEST_TEXT), Some(2)),
    Step::Add(1, LONGEST_NEW, To::Dir, Some(3)),
    Step::Add(3, LONGEST_NEW, To::Same(2), Some(2)),
    Step::Text(2, Some(LONGEST_TEXT)),
    Step::List(1, &[LONGEST_OLD, LONGEST_NEW]),
    Step::Move((3, LONGEST_NEW), (3, LONGEST_OLD), true),
    Step::List(3, &[LONGEST_OLD]),
    Step::Drop(3, LONGEST_OLD, true),
    Step::Drop(1, LONGEST_OLD, true),
    Step::Size(4, 2),
];

/// Lists of steps, each on new stores, by what they show.
fn lists() -> [(&'static str, &'static [Step<'static>]); 5] {
    [
        ("directories are made", &DIRECTORIES),
        ("links and further names are kept", &FURTHER_NAMES),
        ("files move", &FILES),
        ("a directory moves", &MOVED_DIRECTORY),
        ("the longest names and texts are taken", &LONGEST),
    ]
}

#[test]
fn stores_answer_each_step(rt: HostRuntime) -> Result<(), Fail> {
    for (what, steps) in lists().iter() {
        let place = fails_at(rt.alloc(), steps)?;
        assert!(rt; place.is_none(), "{what}: {place:?}");
    }
    Ok(())
}
