//! A table as it is made and ended, its lock, and its steps by hand.

mod late;
mod lock;

ghost use Rattle.dc_table.specs.Passes.{Fits, IsIdle};

use crate::calls::look;
use dc_names::fit_a_table;
use dc_store::Store;
use dc_table::{MakeFault, Nobody, Pass, Shared, Sleepers};
use std::alloc::Global;

/// Buckets and inodes of which no table is made.
static BAD_SIZES: [(u64, u64); 5] = [(0, 16), (3, 16), (2048, 16), (1, 0), (1, 1_048_577)];

static GOOD_SIZES: [(u64, u64); 2] = [(1, 1), (1024, 1_048_576)];

/// Whether a table is made of this many buckets and inodes. `None` if memory is refused.
fn is_made(alloc: Global, buckets: u64, max_inodes: u64) -> Option<bool> {
    match Shared::new(alloc, buckets, max_inodes) {
        Ok(_) => Some(true),
        Err(MakeFault::BadSize) => Some(false),
        Err(_) => None,
    }
}

#[test]
fn a_table_has_its_sizes(rt: HostRuntime) {
    for (buckets, max_inodes) in BAD_SIZES.iter() {
        assert!(rt; is_made(rt.alloc(), *buckets, *max_inodes) == Some(false));
    }
    for (buckets, max_inodes) in GOOD_SIZES.iter() {
        assert!(rt; is_made(rt.alloc(), *buckets, *max_inodes) == Some(true));
    }
}

/// Buckets and inodes of which `with_names` makes no table.
static BAD_BUCKETS: [(u64, u64); 5] = [
    (0, 16),
    (3072, 16),
    (1 << 23, 16),
    (2048, 0),
    (2048, 4_294_967_297),
];

/// Buckets and inodes of which it makes one. More buckets would take gigabytes.
static BUCKETS: [(u64, u64); 3] = [(1, 4_294_967_296), (2048, 1_048_577), (65_536, 16)];

/// How many buckets a table has that is made of this many.
fn buckets_of(alloc: Global, buckets: u64, max_inodes: u64) -> Result<u64, MakeFault> {
    let (shared, _pass) = Shared::with_names(alloc, buckets, max_inodes, u64::MAX)?;
    Ok(shared.buckets())
}

#[test]
fn a_table_is_as_large_as_the_work(rt: HostRuntime) {
    for (buckets, max_inodes) in BAD_BUCKETS.iter() {
        let made = buckets_of(rt.alloc(), *buckets, *max_inodes);
        assert!(rt; made == Err(MakeFault::BadSize));
    }
    for (buckets, max_inodes) in BUCKETS.iter() {
        assert!(rt; buckets_of(rt.alloc(), *buckets, *max_inodes) == Ok(*buckets));
    }
    assert!(rt; fit_a_table(4_194_304, 4_294_967_296));
}

/// Whether another pass has the lock. It is given back if it is got.
fn is_held(shared: &Shared, pass: &mut Pass) -> bool
    requires { Fits shared.now pass.old × IsIdle pass.old }
{
    match shared.try_lock(pass) {
        Ok((holder, guarded)) => {
            holder.give::<Nobody>(guarded);
            false
        }
        Err(_back) => true,
    }
}

#[test]
fn the_lock_is_got_once(rt: HostRuntime) {
    let (shared, mut p) = Shared::new(rt.alloc(), 1, 16).expect(&rt, "memory");
    let mut q = shared.split(&mut p);
    let (holder, guarded) = match shared.try_lock(&mut p) {
        Ok(got) => got,
        Err(_back) => panic!(rt; "the lock is free"),
    };
    assert!(rt; is_held(&shared, &mut q) && guarded.store.live() == 1);
    holder.give::<Nobody>(guarded);
}

/// Whether a walk by hand is before the first change, over two buckets of four rows.
fn is_before_changes(shared: &Shared, pass: &mut Pass) -> bool
    requires { Fits shared.now pass.old × IsIdle pass.old }
    ensures { Fits shared.now pass.new × IsIdle pass.new }
{
    let reader = shared.reader();
    let at = reader.pivot(pass, &look(b"/"), true);
    let learnt = shared.learn(pass);
    at == 0 && learnt == 0 && reader.buckets() == 2 && shared.buckets() == 2 && shared.rows() == 8
}

/// The clock of a table that is closed.
fn clock_of(shared: Shared, pass: Pass) -> Option<u64>
    requires { Fits shared pass × IsIdle pass }
{
    let ended = shared.close(pass)?;
    Some(ended.clock)
}

#[test]
fn a_walk_by_hand_is_recorded(rt: HostRuntime) {
    let (shared, mut p) = Shared::new(rt.alloc(), 2, 16).expect(&rt, "memory");
    assert!(rt; is_before_changes(&shared, &mut p));
    let (holder, guarded) = shared.lock::<Sleepers, _>(&rt, &mut p);
    holder.give::<Sleepers>(guarded);
    assert!(rt; clock_of(shared, p) == Some(0));
}
