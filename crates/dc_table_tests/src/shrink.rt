//! The order of use and the pins, call by call.

ghost use Rattle.std.specs.Prelude.{◌≡◌, ◌<◌, [], IsTrue, IfOk, OnOk, not, true};
ghost use Rattle.std.specs.FinMap as map;
ghost use Rattle.dc_shrink.specs.Listings.{listing, added, pinned_once, is_used, pins_of};
ghost use Rattle.dc_shrink.specs.Uses.{KeepsUse, SetsUse, UsesNone};

use dc_names::NoMemory;
use dc_shrink::{PinFault, Shrinker};
use std::alloc::{AllocError, Global};
use std::test::*;

// The calls that take memory are made once more after it was refused, if nothing changed by that.
// So the tests of rows pass whichever allocation `rt try --test --fail-alloc N` refuses.

pub(crate) fn new_again(alloc: Global, rows: u64) -> Result<Shrinker, NoMemory>
    requires { 0 < rows }
    ensures new { IfOk result (λ s. s ≡ listing rows [] map.empty) }
    ensures rows { IfOk result (λ s. s.rows ≡ rows) }
    ensures unused { IfOk result UsesNone }
{
    match Shrinker::new(alloc, rows) {
        Ok(made) => Ok(made),
        Err(NoMemory) => Shrinker::new(alloc, rows),
    }
}

fn add_again(rows: &mut Shrinker, row: u64) -> Result<(), NoMemory>
    requires within { row < rows.old.rows }
    requires unused { IsTrue (not (is_used rows.old row)) }
    ensures first { OnOk result (rows.new ≡ added rows.old row) }
    ensures used { OnOk result (SetsUse row true rows.old rows.new) }
    ensures rows { OnOk result (rows.new.rows ≡ rows.old.rows) }
{
    let victims = (rows.victim(), rows.victim_of(row / 4));
    match rows.add(row) {
        Ok(()) => Ok(()),
        Err(NoMemory) => {
            if victims != (rows.victim(), rows.victim_of(row / 4)) {
                return Err(NoMemory);
            }
            rows.add(row)
        }
    }
}

fn pin_again(rows: &mut Shrinker, row: u64) -> Result<(), PinFault>
    requires { IsTrue (is_used rows.old row) }
    ensures pinned { OnOk result (rows.new ≡ pinned_once rows.old row) }
    ensures same_use { KeepsUse rows.old rows.new }
    ensures rows { OnOk result (rows.new.rows ≡ rows.old.rows) }
{
    let (pins, victim) = (rows.pins(row), rows.victim());
    match rows.pin(row) {
        Err(PinFault::NoMemory) => {
            if (pins, victim) != (rows.pins(row), rows.victim()) {
                return Err(PinFault::NoMemory);
            }
            rows.pin(row)
        }
        Ok(()) => Ok(()),
        Err(PinFault::Most) => Err(PinFault::Most),
    }
}

/// Takes the row's only pin. If it could not be listed it is out of use, and is added.
fn unpin_again(rows: &mut Shrinker, row: u64) -> Result<(), NoMemory>
    requires within { row < rows.old.rows }
    requires pinned { 0 < pins_of rows.old row }
{
    let victim = rows.victim();
    match rows.unpin(row) {
        Ok(()) => Ok(()),
        Err(NoMemory) => {
            if rows.pins(row) != 0 || rows.victim() != victim {
                return Err(NoMemory);
            }
            rows.add(row)
        }
    }
}

/// Whether a row that is listed, and one that is pinned, is listed as the last once it is chosen.
fn lists_anew(alloc: Global) -> Result<bool, PinFault> {
    let mut rows = new_again(alloc, 4)?;
    add_again(&mut rows, 0)?;
    add_again(&mut rows, 1)?;
    // A row that is listed takes no memory.
    rows.renew(0)?;
    let renewed = rows.victim() == Some(1);
    pin_again(&mut rows, 1)?;
    if rows.renew(1).is_err() {
        rows.renew(1)?;
    }
    Ok(renewed && rows.pins(1) == 0 && rows.victim() == Some(0))
}

#[test]
fn a_chosen_row_is_listed_anew(rt: HostRuntime) -> Result<(), Fail> {
    assert!(rt; lists_anew(rt.alloc())?);
    Ok(())
}

/// Whether row 2 goes first, while row 1 isn't pinned.
fn is_second_first(rows: &Shrinker) -> bool {
    let first = rows.victim_of(0) == Some(2) && rows.victim_of(1).is_none();
    first && rows.pins(1) == 0
}

/// Whether rows go in the order in which they were used last.
fn goes_in_order(alloc: Global) -> Result<bool, PinFault> {
    let mut rows = new_again(alloc, 4)?;
    let mut right = rows.victim().is_none();
    add_again(&mut rows, 0)?;
    add_again(&mut rows, 1)?;
    add_again(&mut rows, 2)?;
    rows.touch(0);
    right &= rows.victim() == Some(1);
    pin_again(&mut rows, 1)?;
    right &= rows.pins(1) == 1;
    right &= rows.victim() == Some(2);
    unpin_again(&mut rows, 1)?;
    right &= is_second_first(&rows);
    rows.remove(2);
    right &= rows.victim() == Some(0);
    rows.remove(0);
    right &= rows.victim() == Some(1);
    Ok(right)
}

#[test]
fn least_recently_used_goes_first(rt: HostRuntime) -> Result<(), Fail> {
    assert!(rt; goes_in_order(rt.alloc())?);
    Ok(())
}

/// Whether the last pin of a row that goes lists the row.
fn last_unpin_lists(alloc: Global) -> Result<bool, PinFault> {
    let mut rows = new_again(alloc, 8)?;
    add_again(&mut rows, 7)?;
    pin_again(&mut rows, 7)?;
    if rows.pins(7) != 1 {
        return Ok(false);
    }
    let listed = rows.unpin(7).is_ok();
    Ok(listed && rows.victim_of(1) == Some(7))
}

// At most one allocation is refused in a run: one of two rows is listed for certain.
#[test]
fn unpinned_rows_are_listed(rt: HostRuntime) -> Result<(), Fail> {
    let first = last_unpin_lists(rt.alloc())?;
    let second = last_unpin_lists(rt.alloc())?;
    assert!(rt; first || second);
    Ok(())
}

/// Whether a fault has this text.
fn is_told(alloc: Global, fault: PinFault, text: &str) -> Result<bool, AllocError> {
    let told = format!(in alloc; "{fault}")?;
    Ok(told.as_str() == text)
}

#[test]
fn faults_have_texts(rt: HostRuntime) -> Result<(), Fail> {
    assert!(rt; is_told(rt.alloc(), PinFault::NoMemory, "no memory")?);
    assert!(rt; is_told(rt.alloc(), PinFault::Most, "too many pins")?);
    Ok(())
}
