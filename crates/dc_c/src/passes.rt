//! How a cache and its passes begin and end, and what a pass learns and empties.

ghost use Rattle.std.specs.Prelude.{◌≡◌, ◌∷◌, [], IfOk, IfErr};
ghost use Rattle.dc_cache.specs.Passes.{view};
ghost use Rattle.dc_c.specs.Shapes.{Begins, Closes, Counts, Joins, Learns, Shrinks, ShowsClock, ShowsCount, ShowsMany, Splits};
ghost use Rattle.dc_hold.specs.Allowed.{IsFirst, IsSplit};
ghost use Rattle.dc_hold.specs.Numbers.{status_number, status_of_sizes};
ghost use Rattle.dc_hold.specs.declared.status.Status.TheVariants.{Done, NoMemory};

use crate::handle::Handle;
use dc_hold::{Hold, Status};
use std::alloc::Global;

/// A cache with its first hold, in a box.
fn begun(alloc: Global, buckets: u64, inodes: u64, names: u64) -> Result<Box<Hold, Global>, Status>
    ensures first { IfOk result (λ hold. IsFirst buckets inodes hold.value.pass) }
    ensures fault { IfErr result (λ status. status ≡ status_of_sizes buckets inodes) }
{
    let hold = Hold::new(alloc, buckets, inodes, names)?;
    match Box::new(alloc, hold) {
        Ok(hold) => Ok(hold),
        Err(_) => Err(Status::NoMemory),
    }
}

/// Another hold of the same cache, in a box.
fn cut_off(alloc: Global, hold: &mut Hold) -> Result<Box<Hold, Global>, Status>
    ensures split { IfOk result (λ other. IsSplit hold.old.pass hold.new.pass other.value.pass) }
    ensures fault { IfErr result (λ status. status ≡ NoMemory) }
    ensures same { IfErr result (λ _. view hold.new.pass ≡ view hold.old.pass) }
{
    let Ok(other) = hold.split() else {
        return Err(Status::NoMemory);
    };
    match Box::new(alloc, other) {
        Ok(other) => Ok(other),
        Err(_) => Err(Status::NoMemory),
    }
}

/// Puts a hold into a blank handle, if there is one, and answers how the call ended.
fn opened(blank: &mut Handle, made: Result<Box<Hold, Global>, Status>) -> i32
    requires { blank.old.held.holds ≡ [] }
    ensures done { IfOk made (λ hold.
        (blank.new.held.holds ≡ hold.value ∷ []) × (result ≡ status_number Done)) }
    ensures fault { IfErr made (λ status.
        (blank.new.held.holds ≡ []) × (result ≡ status_number status)) }
{
    match made {
        Ok(hold) => {
            blank.put(hold);
            Status::Done.number()
        }
        Err(status) => status.number(),
    }
}

/// Makes a cache with its first pass, which takes twice as many names as inodes. `BadSize` if a cache may not
/// have these sizes.
#[unsafe(no_mangle)]
pub extern "C" fn gb_cache_new(alloc: Global, buckets: u64, inodes: u64, blank: &mut Handle) -> i32
    ensures begins { Begins buckets inodes blank.old blank.new result }
{
    gb_cache_with_names(alloc, buckets, inodes, inodes.saturating_mul(2), blank)
}

/// Makes a cache with its first pass, which takes this many names. `BadSize` if a cache may not have these
/// sizes.
#[unsafe(no_mangle)]
pub extern "C" fn gb_cache_with_names(
    alloc: Global,
    buckets: u64,
    inodes: u64,
    names: u64,
    blank: &mut Handle,
) -> i32
    ensures begins { Begins buckets inodes blank.old blank.new result }
{
    if blank.is_open() {
        return Status::BadPass.number();
    }
    opened(blank, begun(alloc, buckets, inodes, names))
}

/// Another pass of the same cache, for another thread.
#[unsafe(no_mangle)]
pub extern "C" fn gb_pass_split(alloc: Global, pass: &mut Handle, blank: &mut Handle) -> i32
    ensures splits { Splits pass.old pass.new result blank.old.held.holds blank.new.held.holds }
{
    if blank.is_open() {
        return Status::BadPass.number();
    }
    let Some(mut hold) = pass.take() else {
        return Status::BadPass.number();
    };
    let split = cut_off(alloc, &mut hold);
    pass.put(hold);
    opened(blank, split)
}

/// Ends another pass of the same cache, of which this one then has seen what it saw.
#[unsafe(no_mangle)]
pub extern "C" fn gb_pass_join(pass: &mut Handle, other: &mut Handle) -> i32
    ensures joins { Joins pass.old pass.new result other.old.held.holds other.new.held.holds }
{
    let Some(mut hold) = pass.take() else {
        return Status::BadPass.number();
    };
    let Some(ended) = other.take() else {
        pass.put(hold);
        return Status::BadPass.number();
    };
    if !hold.shares_with(&ended) {
        pass.put(hold);
        other.put(ended);
        return Status::BadPass.number();
    }
    drop(ended);
    // What the other pass saw came before this load of the clock.
    hold.learn(0);
    pass.put(hold);
    Status::Done.number()
}

/// Ends a pass. The last one of a cache ends the cache.
#[unsafe(no_mangle)]
pub extern "C" fn gb_close(pass: &mut Handle) -> i32
    ensures closes { Closes pass.old pass.new result }
{
    match pass.take() {
        Some(hold) => {
            drop(hold);
            Status::Done.number()
        }
        None => Status::BadPass.number(),
    }
}

/// Writes the clock that was loaded, and answers how the call ended.
fn tell_clock(clock: &mut u64, learnt: (bool, u64)) -> i32
    ensures { ShowsClock learnt result clock.new }
{
    let (has_come, seen) = learnt;
    *clock = seen;
    Status::of_learn(has_come).number()
}

/// Sees how many changes were made, and whether these are at least `at`.
#[unsafe(no_mangle)]
pub extern "C" fn gb_learn(pass: &mut Handle, at: u64, clock: &mut u64) -> i32
    ensures learns { Learns at pass.old pass.new result clock.old clock.new }
{
    let Some(mut hold) = pass.take() else {
        return Status::BadPass.number();
    };
    let learnt = hold.learn(at);
    pass.put(hold);
    tell_clock(clock, learnt)
}

/// Writes how many rows were emptied, if any might be, and answers how the call ended.
fn tell_many(emptied: &mut u64, tried: Option<u64>) -> i32
    ensures { ShowsMany emptied.old tried result emptied.new }
{
    match tried {
        Some(many) => {
            *emptied = many;
            Status::Done.number()
        }
        None => Status::Busy.number(),
    }
}

/// Empties up to this many rows.
#[unsafe(no_mangle)]
pub extern "C" fn gb_try_shrink(pass: &mut Handle, most: u64, emptied: &mut u64) -> i32
    ensures shrinks { Shrinks most pass.old pass.new result emptied.old emptied.new }
{
    let Some(mut hold) = pass.take() else {
        return Status::BadPass.number();
    };
    let tried = hold.try_shrink(most);
    pass.put(hold);
    tell_many(emptied, tried)
}

/// Writes what was counted, and answers how the call ended.
fn tell_count(written: &mut u64, count: u64) -> i32
    ensures { ShowsCount count result written.new }
{
    *written = count;
    Status::Done.number()
}

/// How many rows have lost their name to another.
#[unsafe(no_mangle)]
pub extern "C" fn gb_counts(pass: &mut Handle, evictions: &mut u64) -> i32
    ensures counts { Counts pass.old pass.new result evictions.old evictions.new }
{
    let Some(hold) = pass.take() else {
        return Status::BadPass.number();
    };
    let count = hold.evictions();
    pass.put(hold);
    tell_count(evictions, count)
}

/// How many rows tell of a name or of a link's text at the moment.
#[unsafe(no_mangle)]
pub extern "C" fn gb_rows_in_use(pass: &mut Handle, rows: &mut u64) -> i32
    ensures counts { Counts pass.old pass.new result rows.old rows.new }
{
    let Some(hold) = pass.take() else {
        return Status::BadPass.number();
    };
    let count = hold.rows_in_use();
    pass.put(hold);
    tell_count(rows, count)
}
