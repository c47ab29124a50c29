//! Paths of directories, by hand.
use super::answered;
use crate::calls::Ask;
use dc_names::{NoMemory, PATH_MAX, Refusal};
use dc_ops::{carry, path_of, plan};
use dc_plain::{Call, Reply};
use dc_store::SlabStore;
use std::alloc::Global;
use std::test::Fail;

/// The longest name, of which fifteen with their slashes have 3,840 bytes.
static NAME: [u8; 255] = [b'n'; 255];

/// Directories 2 to 4, and the file 5.
static MADE: [Ask<'static>; 4] = [
    Ask::Mkdir(b"/a"),
    Ask::Mkdir(b"/a/b"),
    Ask::Mkdir(b"/a/c"),
    Ask::Create(b"/f"),
];

/// A call on that tree, as the ones before it left it, and where a number is then.
static PATHS: [(Ask<'static>, u64, Result<&[u8], Refusal>); 9] = [
    (Ask::Look(b"/"), 1, Ok(b"/")),
    (Ask::Look(b"/"), 3, Ok(b"/a/b")),
    (Ask::Rename(b"/a", b"/long"), 3, Ok(b"/long/b")),
    (Ask::Rename(b"/long/b", b"/long/c/d"), 3, Ok(b"/long/c/d")),
    (Ask::Exchange(b"/f", b"/long/c"), 3, Ok(b"/f/d")),
    (Ask::Rmdir(b"/f/d"), 3, Err(Refusal::NotFound)),
    (Ask::Look(b"/"), 5, Err(Refusal::NotFound)),
    (Ask::Look(b"/"), 6, Err(Refusal::NotFound)),
    (Ask::Look(b"/"), 0, Err(Refusal::NotFound)),
];

/// Whether a number has this path, or is refused so.
fn is_at(store: &SlabStore, number: u64, want: Result<&[u8], Refusal>) -> bool {
    let mut buffer = [0; PATH_MAX];
    match path_of(store, number, &mut buffer) {
        Ok(start) => match want {
            Ok(path) => buffer[start..] == path[..],
            Err(_) => false,
        },
        Err(refusal) => match want {
            Ok(_) => false,
            Err(wanted) => refusal == wanted,
        },
    }
}

fn find_all(alloc: Global) -> Result<(), Fail> {
    let mut store = SlabStore::new(alloc)?;
    for ask in MADE.iter() {
        answered(alloc, &mut store, &ask.call())?;
    }
    for (ask, number, want) in PATHS.iter() {
        answered(alloc, &mut store, &ask.call())?;
        if !is_at(&store, *number, *want) {
            return Err(Fail::from(*number));
        }
    }
    Ok(())
}

/// The number of a new directory in a directory.
fn made_in(alloc: Global, store: &mut SlabStore, base: u64, path: &[u8]) -> Result<u64, NoMemory> {
    match plan(store, &Call::Mkdir { base, path }, 32) {
        Ok(plan) => match carry(alloc, store, plan)? {
            Reply::Done(number) => Ok(number),
            _ => Ok(0),
        },
        Err(_) => Ok(0),
    }
}

/// A path of 4,095 bytes, and one of 4,096, which is as long as no path may be.
fn find_longest(alloc: Global) -> Result<(), Fail> {
    let mut store = SlabStore::new(alloc)?;
    let mut base = 1;
    for _ in 0..15 {
        base = made_in(alloc, &mut store, base, &NAME)?;
    }
    let longest = made_in(alloc, &mut store, base, &NAME[1..])?;
    let longer = made_in(alloc, &mut store, base, &NAME)?;
    let mut buffer = [0; PATH_MAX];
    if path_of(&store, longest, &mut buffer) != Ok(0) {
        return Err(Fail::from(longest));
    }
    if path_of(&store, longer, &mut buffer) != Err(Refusal::NameTooLong) {
        return Err(Fail::from(longer));
    }
    Ok(())
}

#[test]
fn directories_have_paths(rt: HostRuntime) -> Result<(), Fail> {
    find_all(rt.alloc())?;
    find_longest(rt.alloc())
}
