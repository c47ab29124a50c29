//! Changes in one thread and in four, and rows that are pinned, unpinned and emptied.

ghost use Rattle.std.specs.Thread.{IsSync};
ghost use Rattle.dc_ops.specs.Asked.{IsChange};
ghost use Rattle.dc_table.specs.Passes.{Fits, IsIdle};

use crate::calls::{create, mkdir, rmdir, unlink};
use dc_index::HashedKey;
use dc_plain::{Call, Key, Label, Reply};
use dc_rows::{Guard, change, pin, shrink, unpin_all};
use dc_store::Store;
use dc_table::{Pass, Shared, Sleepers};
use std::alloc::Global;
use std::sync::Wait;
use std::test::Fail;
use std::thread::{Threads, join};

/// Whether a change is answered so, at this point.
fn is_made<R: Wait>(
    rt: &R,
    alloc: Global,
    shared: &Shared,
    pass: &mut Pass,
    call: &Call<'_>,
    reply: &Reply,
    at: u64,
) -> bool
    requires pass { Fits shared.now pass.old × IsIdle pass.old }
    requires change { IsChange call.now }
    ensures { Fits shared.now pass.new × IsIdle pass.new }
{
    match change(shared, rt, alloc, pass, call) {
        Ok((made, point)) => made == *reply && point == at,
        Err(_) => false,
    }
}

/// Whether a new table makes and removes a directory, and refuses what no rule lets it do.
fn are_made<R: Wait>(rt: &R, alloc: Global, shared: &Shared, pass: &mut Pass) -> bool
    requires { Fits shared.now pass.old × IsIdle pass.old }
    ensures { Fits shared.now pass.new × IsIdle pass.new }
{
    let done = is_made(rt, alloc, shared, pass, &mkdir(b"/a"), &Reply::Done(2), 0);
    let there = is_made(
        rt,
        alloc,
        shared,
        pass,
        &mkdir(b"/a"),
        &Reply::Refused(17),
        1,
    );
    let no_file = is_made(
        rt,
        alloc,
        shared,
        pass,
        &unlink(b"/a"),
        &Reply::Refused(1),
        1,
    );
    let gone = is_made(rt, alloc, shared, pass, &rmdir(b"/a"), &Reply::Unit, 1);
    done && there && no_file && gone
}

#[test]
fn changes_are_answered_at_their_points(rt: HostRuntime) -> Result<(), Fail> {
    let (shared, mut p) = Shared::new(rt.alloc(), 1, 16).expect(&rt, "memory");
    assert!(rt; are_made(&rt, rt.alloc(), &shared, &mut p));
    let q = shared.split(&mut p);
    shared.join(&mut p, q);
    let value = shared.close(p).expect(&rt, "the lock is free");
    assert!(rt; value.clock == 2 && value.store.live() == 1);
    Ok(())
}

/// Creates a hundred files whose names begin with this letter, and returns the pass.
fn fill<R: Wait>(rt: &R, alloc: Global, shared: &Shared, mut pass: Pass, letter: u8) -> Pass
    requires { Fits shared.now pass × IsIdle pass }
    ensures { Fits shared.now result × IsIdle result }
{
    for tens in b'0'..=b'9' {
        for ones in b'0'..=b'9' {
            let path = [b'/', letter, tens, ones];
            // A refusal shows in the count of what lives in the end.
            let _ = change(shared, rt, alloc, &mut pass, &create(&path));
        }
    }
    pass
}

/// A pass and one that is split off it fill the table in two threads.
fn fill_both<R: Threads + Wait + Sync>(
    rt: &R,
    alloc: Global,
    table: &Shared,
    mut pass: Pass,
    first: u8,
    second: u8,
) -> Pass
    requires pass { Fits table.now pass × IsIdle pass }
    requires sync { IsSync R.row }
    ensures { Fits table.now result × IsIdle result }
{
    let other = table.split(&mut pass);
    let (mut pass, other) = join(
        rt,
        move || -> Pass
            requires { Fits table.now pass × IsIdle pass }
            ensures { Fits table.entry.now result × IsIdle result }
        { fill(rt, alloc, table, pass, first) },
        move || -> Pass
            requires { Fits table.now other × IsIdle other }
            ensures { Fits table.entry.now result × IsIdle result }
        { fill(rt, alloc, table, other, second) },
    );
    table.join(&mut pass, other);
    pass
}

#[test]
fn four_threads_fill_one_table(rt: HostRuntime) -> Result<(), Fail> {
    let (shared, mut p) = Shared::new(rt.alloc(), 16, 1024).expect(&rt, "memory");
    let q = shared.split(&mut p);
    let table = &shared;
    let alloc = rt.alloc();
    let (mut p, q) = join(
        &rt,
        move || -> Pass
            requires { Fits table.now p × IsIdle p }
            ensures { Fits table.entry.now result × IsIdle result }
        { fill_both(&rt, alloc, table, p, b'a', b'b') },
        move || -> Pass
            requires { Fits table.now q × IsIdle q }
            ensures { Fits table.entry.now result × IsIdle result }
        { fill_both(&rt, alloc, table, q, b'c', b'd') },
    );
    shared.join(&mut p, q);
    let value = shared.close(p).expect(&rt, "the lock is free");
    assert!(rt; value.clock == 400 && value.store.live() == 401);
    Ok(())
}

#[test]
fn a_row_is_pinned_until_it_is_unpinned(rt: HostRuntime) -> Result<(), Fail> {
    let (shared, mut p) = Shared::new(rt.alloc(), 1, 16).expect(&rt, "memory");
    let root = HashedKey::new(Key {
        number: 1,
        label: Label::DotDot,
    });
    let pinned = pin(&shared, &rt, rt.alloc(), &mut p, &root).expect(&rt, "memory");
    assert!(rt; pinned == Some(0));
    let kept = shrink(&shared, &rt, &mut p, 4);
    assert!(rt; kept == 0);
    unpin_all(&shared, &rt, &mut p, &[0]);
    let emptied = shrink(&shared, &rt, &mut p, 4);
    assert!(rt; emptied == 1);
    Ok(())
}

#[test]
fn a_guard_shows_the_tree(rt: HostRuntime) -> Result<(), Fail> {
    let (shared, mut p) = Shared::new(rt.alloc(), 1, 16).expect(&rt, "memory");
    let mut guard = match Guard::try_lock(&shared, &mut p) {
        Ok(guard) => guard,
        Err(_back) => panic!(rt; "the lock is free"),
    };
    let root = HashedKey::new(Key {
        number: 1,
        label: Label::DotDot,
    });
    let row = guard.fill(rt.alloc(), &root).expect(&rt, "memory");
    assert!(rt; row == Some(0));
    assert!(rt; guard.store().live() == 1 && guard.clock() == 0);
    guard.unpin(0);
    guard.give::<Sleepers>();
    let mut guard = Guard::lock(&shared, &rt, &mut p);
    let row = guard.pin(rt.alloc(), &root).expect(&rt, "memory");
    assert!(rt; row == Some(0));
    guard.unpin_all(&[0]);
    assert!(rt; guard.shrink(1) == 1);
    let (_back, made) = guard.change::<Sleepers>(rt.alloc(), &mkdir(b"/a"));
    assert!(rt; matches!(made, Ok((Reply::Done(2), 0))));
    Ok(())
}
