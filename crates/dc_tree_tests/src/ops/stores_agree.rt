//! Both stores and the slow machine answer a long list of calls alike.
use super::answered;
use crate::calls::Ask;
use dc_names::NoMemory;
use dc_plain::{Call, PlainTree, Reply};
use dc_store::{MapStore, SlabStore, Store};
use std::alloc::Global;
use std::test::Fail;

/// Paths of few names, so that calls meet what others left. Some end in a slash, some lead through links.
static PATHS: [&[u8]; 16] = [
    b"/a", b"/b", b"/c", b"/a/b", b"/a/c", b"/b/a", b"/b/c", b"/c/a", b"/c/b", b"/a/b/c", b"/b/a/",
    b"/l", b"/l/a", b"/a/../c", b"l", b"/c/./b",
];

/// The next number of a fixed sequence in which none seems to follow from the one before.
fn drawn(number: u32) -> u32 {
    number.wrapping_mul(1_664_525).wrapping_add(1_013_904_223)
}

/// One of the paths.
fn path_of(number: u32) -> &'static [u8] {
    PATHS[(number >> 24) as usize % PATHS.len()]
}

/// A call of one of the eleven kinds.
fn ask_of(number: u32) -> Ask<'static> {
    let (path, other) = (path_of(number), path_of(drawn(number)));
    match (number >> 12) % 14 {
        0 | 11 => Ask::Mkdir(path),
        1 | 12 => Ask::Create(path),
        2 => Ask::Link(other, path),
        3 => Ask::Symlink(other, path),
        4 => Ask::Unlink(path),
        5 => Ask::Rmdir(path),
        6 | 13 => Ask::Rename(other, path),
        7 => Ask::Look(path),
        8 => Ask::Stat(path),
        9 => Ask::Readlink(path),
        _ => Ask::List(path),
    }
}

/// How often each kind of reply came: found, done, unit, texts, names, counts, refusals.
fn counted(seen: &mut [u32; 7], reply: &Reply) {
    let kind = match reply {
        Reply::Found(_, _) => 0,
        Reply::Done(_) => 1,
        Reply::Unit => 2,
        Reply::Text(_) => 3,
        Reply::Names(_) => 4,
        Reply::Stat(_, _, _) => 5,
        Reply::Refused(_) => 6,
    };
    seen[kind] = seen[kind].saturating_add(1);
}

/// The three that are asked.
#[derive(Drop)]
struct Three {
    map: MapStore,
    slab: SlabStore,
    plain: PlainTree,
}

impl Three {
    fn new(alloc: Global) -> Result<Three, NoMemory> {
        Ok(Three {
            map: MapStore::new(alloc)?,
            slab: SlabStore::new(alloc)?,
            plain: PlainTree::new(alloc, 16)?,
        })
    }

    /// The reply of all three, if they are equal.
    fn answer(&mut self, alloc: Global, call: &Call) -> Result<Option<Reply>, NoMemory> {
        let wanted = self.plain.apply(alloc, call)?;
        let by_map = answered(alloc, &mut self.map, call)?;
        let by_slab = answered(alloc, &mut self.slab, call)?;
        Ok((by_map == wanted && by_slab == wanted).then_some(wanted))
    }
}

/// What is asked at a step: with exchanges, one of two of the paths comes after every two other calls.
fn ask_at(step: u32, number: u32, exchanges: bool) -> Ask<'static> {
    if exchanges && step % 3 == 2 {
        Ask::Exchange(path_of(number), path_of(drawn(number)))
    } else {
        ask_of(number)
    }
}

/// How often each kind of reply came to this many calls, and the next number of a slab. Fails if two
/// replies differ.
fn answer_alike(alloc: Global, steps: u32, exchanges: bool) -> Result<([u32; 7], u64), Fail> {
    let mut three = Three::new(alloc)?;
    let mut seen = [0; 7];
    let mut number = 7;
    for step in 0..steps {
        number = drawn(number);
        let ask = ask_at(step, number, exchanges);
        let Some(reply) = three.answer(alloc, &ask.call())? else {
            return Err(Fail::from(("step", step)));
        };
        counted(&mut seen, &reply);
    }
    Ok((seen, three.slab.next()))
}

#[test]
fn stores_answer_alike(rt: HostRuntime) -> Result<(), Fail> {
    let (seen, next) = answer_alike(rt.alloc(), 1000, false)?;
    // Every kind of reply came, and twice as many inodes were made as may live, so slab keys were used again.
    assert!(rt; seen.iter().all(|times| *times >= 10));
    assert!(rt; next > 32);
    Ok(())
}

#[test]
fn stores_exchange_alike(rt: HostRuntime) -> Result<(), Fail> {
    let _ = answer_alike(rt.alloc(), 900, true)?;
    Ok(())
}
