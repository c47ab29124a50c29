//! After a refused allocation every inode is as it was: `rt try --test --fail-alloc N` refuses the Nth.
use super::{Step, To, answers, answers_again, new_map, new_slab};
use dc_names::NoMemory;
use dc_store::Store;
use std::alloc::Global;
use std::test::Fail;

/// Whether two stores say the same of a number.
fn agree_on<S: Store, T: Store>(one: &S, other: &T, number: u64) -> bool {
    one.kind(number) == other.kind(number)
        && one.parent(number) == other.parent(number)
        && one.text(number) == other.text(number)
        && one.count(number) == other.count(number)
}

/// Whether two stores are one tree, by what they say of each number up to the next.
fn agree<S: Store, T: Store>(one: &S, other: &T, alloc: Global) -> Result<bool, NoMemory> {
    for number in 0..20 {
        if !agree_on(one, other, number) || one.list(alloc, number)? != other.list(alloc, number)? {
            return Ok(false);
        }
    }
    Ok((one.next(), one.live()) == (other.next(), other.live()))
}

/// Whether two stores are one tree, asked once more if memory is refused.
fn agree_again<S: Store, T: Store>(one: &S, other: &T, alloc: Global) -> Result<bool, NoMemory> {
    match agree(one, other, alloc) {
        Ok(same) => Ok(same),
        Err(NoMemory) => agree(one, other, alloc),
    }
}

/// Takes a step that the other store hasn't taken yet. If it is refused memory, the store is still one
/// tree with the other, and the step is taken once more.
fn takes<S: Store, T: Store>(
    store: &mut S,
    other: &T,
    alloc: Global,
    step: &Step<'_>,
) -> Result<bool, NoMemory> {
    if let Ok(right) = answers(store, alloc, step) {
        return Ok(right);
    }
    if !agree(store, other, alloc)? {
        return Ok(false);
    }
    answers(store, alloc, step)
}

/// The place of the first step after which two stores are no longer one tree.
fn apart_at<S: Store, T: Store>(
    one: &mut S,
    other: &mut T,
    alloc: Global,
    steps: &[Step<'_>],
) -> Result<Option<usize>, NoMemory> {
    for (place, step) in steps.iter().enumerate() {
        let taken = takes(one, other, alloc, step)?;
        let also = answers_again(other, alloc, step)?;
        if !taken || !also || !agree_again(one, other, alloc)? {
            return Ok(Some(place));
        }
    }
    Ok(None)
}

/// The place of the first step after which two new stores are no longer one tree.
fn parts_at(alloc: Global, steps: &[Step<'_>]) -> Result<Option<usize>, NoMemory> {
    let mut map = new_map(alloc)?;
    let mut slab = new_slab(alloc)?;
    apart_at(&mut slab, &mut map, alloc, steps)
}

static CHANGES: [Step<'static>; 20] = [
    Step::Add(1, b"d", To::Dir, Some(2)),
    Step::Add(2, b"f", To::File, Some(3)),
    Step::Add(1, b"l", To::Link(b"d/f"), Some(4)),
    Step::Add(2, b"l", To::Same(4), Some(4)),
    Step::Add(1, b"g", To::Same(3), Some(3)),
    Step::Move((2, b"f"), (1, b"h"), true),
    // What goes leaves its slot to the next that is made.
    Step::Drop(1, b"l", true),
    Step::Drop(2, b"l", true),
    Step::Add(2, b"e", To::Dir, Some(5)),
    Step::Drop(2, b"e", true),
    Step::Add(1, b"e", To::File, Some(6)),
    Step::Move((1, b"e"), (1, b"g"), true),
    Step::Move((1, b"g"), (1, b"h"), true),
    Step::Add(2, b"a", To::Dir, Some(7)),
    Step::Add(1, b"b", To::Dir, Some(8)),
    Step::Move((2, b"a"), (1, b"b"), true),
    Step::Drop(1, b"d", true),
    Step::Add(7, b"l", To::Link(b"."), Some(9)),
    Step::List(1, &[b"b", b"h"]),
    Step::Size(10, 4),
];

#[test]
fn refusals_change_nothing(rt: HostRuntime) -> Result<(), Fail> {
    assert!(rt; parts_at(rt.alloc(), &CHANGES)?.is_none());
    Ok(())
}
