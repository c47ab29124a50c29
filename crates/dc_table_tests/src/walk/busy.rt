//! Look-ups that come to a row while it is written. A pass that has the lock shuts the row of a key,
//! others look up, and then it writes the row and opens it.

ghost use Rattle.std.specs.Prelude.{◌≡◌, ◌<◌, length, true};
ghost use Rattle.dc_events.specs.Rows.{base_of, count, most};
ghost use Rattle.dc_index.specs.Slots.{slot_of, has_key};
ghost use Rattle.dc_rows.specs.Changes.{KeepsTree, OnlyWrites, RestAt};
ghost use Rattle.dc_rows.specs.Filling.{Redone, Emptied};
ghost use Rattle.dc_rows.specs.Rows.{MayTell, Wrote};
ghost use Rattle.dc_table.specs.Changes.{tree_now, words_of};
ghost use Rattle.dc_table.specs.Holders.{pass_of};
ghost use Rattle.dc_table.specs.Passes.{view, share, CanShut, CanWrite};
ghost use Rattle.dc_table.specs.Rows.{MayStand};
ghost use Rattle.dc_walk.specs.Findings.{CanWalk};

use super::{change, count, in_root, is_answered, look};
use crate::calls::mkdir;
use dc_names::Kind;
use dc_plain::{Key, Reply};
use dc_row::{EMPTY_ROW, ROW_WORDS, empty_row_spells_nothing};
use dc_table::{Guarded, Holder, MOST_COUNT, Nobody, Pass, Shared};
use dc_walk::{Fast, Why};
use std::alloc::Global;
use std::sync::Wait;

/// What look-ups came to while a row was odd.
#[derive(Clone, Copy)]
struct Met {
    row: u64,
    odd: u64,
    /// Whether those of `/a`, whose row it is, and of `/z`, of which no row tells, gave up since it is
    /// written.
    busy: bool,
    /// Whether that of `/b`, of which another row tells, was answered.
    answered: bool,
}

/// Whether a walk gave up since row 0 was being written.
fn is_busy(found: &Option<Fast>) -> bool {
    matches!(found, Some(Fast::Again(Why::Busy(0))))
}

/// Looks three paths up while a row has this odd count.
fn meet(shared: &Shared, pass: &mut Pass, row: u64, odd: u64) -> Met
    requires { CanWalk shared.now pass.old }
    ensures { CanWalk shared.now pass.new }
{
    let own = is_busy(&look(shared, pass, b"/a"));
    let none = is_busy(&look(shared, pass, b"/z"));
    let answered = is_answered(&look(shared, pass, b"/b"), &Reply::Refused(2), 1);
    Met {
        row,
        odd,
        busy: own && none,
        answered,
    }
}

/// Writes all words of an odd row after its count, and opens it.
fn open_with(holder: &mut Holder<'_>, row: u64, words: &[u64; ROW_WORDS])
    requires row { row < (share (pass_of holder.old)).rows }
    requires size { let p = pass_of holder.old in length (words_of p) ≡ base_of (share p).rows }
    requires odd { CanWrite (view (pass_of holder.old)) row }
    requires low { count (words_of (pass_of holder.old)) row < most }
    requires stands { let p = pass_of holder.old in
        MayStand (tree_now p) (words_of p) row words.now }
    ensures same_reference { holder.new.pass.ghost_name ≡ holder.old.pass.ghost_name }
    ensures pass { OnlyWrites (pass_of holder.old) (pass_of holder.new) }
    ensures wrote { Wrote (words_of (pass_of holder.old)) (words_of (pass_of holder.new)) row words.now 1 }
{
    for i in 1..ROW_WORDS {
        holder.write_word(row, i as u64, words[i]);
    }
    holder.open_row(row);
}

/// Shuts a row, has another pass look up, writes the row's words and opens it. `false` if that was
/// its last opening: then it is empty.
fn rewrite(
    holder: &mut Holder<'_>,
    row: u64,
    words: &[u64; ROW_WORDS],
    shared: &Shared,
    pass: &mut Pass,
) -> (bool, Met)
    requires row { let p = pass_of holder.old in (row < (share p).rows) × CanShut (view p) row }
    requires size { let p = pass_of holder.old in length (words_of p) ≡ base_of (share p).rows }
    requires tells { MayTell (tree_now (pass_of holder.old)) words.now }
    requires walker { CanWalk shared.now pass.old }
    ensures same_reference { holder.new.pass.ghost_name ≡ holder.old.pass.ghost_name }
    ensures pass { OnlyWrites (pass_of holder.old) (pass_of holder.new) }
    ensures redone { Redone (words_of (pass_of holder.old)) (words_of (pass_of holder.new)) row
        words.now result.0 }
    ensures walker { CanWalk shared.now pass.new }
{
    empty_row_spells_nothing();
    let odd = holder.shut_row(row);
    let met = meet(shared, pass, row, odd);
    if odd + 1 >= MOST_COUNT {
        open_with(holder, row, &EMPTY_ROW);
        return (false, met);
    }
    open_with(holder, row, words);
    (true, met)
}

/// Empties a row that has a key, which it loses. Whether it is in use is another's matter.
fn empty(
    holder: &mut Holder<'_>,
    kept: &mut Guarded,
    row: u64,
    shared: &Shared,
    pass: &mut Pass,
) -> Met
    requires row { let p = pass_of holder.old in (row < (share p).rows) × CanShut (view p) row }
    requires size { let p = pass_of holder.old in length (words_of p) ≡ base_of (share p).rows }
    requires key { has_key (slot_of kept.old.index row) ≡ true }
    requires walker { CanWalk shared.now pass.old }
    ensures same_reference { holder.new.pass.ghost_name ≡ holder.old.pass.ghost_name }
    ensures pass { OnlyWrites (pass_of holder.old) (pass_of holder.new) }
    ensures tree { KeepsTree kept.old kept.new }
    ensures shrinker { kept.new.shrinker ≡ kept.old.shrinker }
    ensures emptied { Emptied (words_of (pass_of holder.old)) (words_of (pass_of holder.new))
        kept.old.index kept.new.index row }
    ensures walker { CanWalk shared.now pass.new }
{
    empty_row_spells_nothing();
    let (more, met) = rewrite(holder, row, &EMPTY_ROW, shared, pass);
    if more {
        kept.index.clear(row);
    } else {
        kept.index.retire(row);
    }
    met
}

/// Empties a row that has a key, which it loses, and takes it out of use.
fn evict_row(
    holder: &mut Holder<'_>,
    kept: &mut Guarded,
    row: u64,
    shared: &Shared,
    pass: &mut Pass,
) -> Met
    requires key { has_key (slot_of kept.old.index row) ≡ true }
    requires rest { RestAt (pass_of holder.old) kept.old }
    requires walker { CanWalk shared.now pass.old }
    ensures same_reference { holder.new.pass.ghost_name ≡ holder.old.pass.ghost_name }
    ensures pass { OnlyWrites (pass_of holder.old) (pass_of holder.new) }
    ensures tree { KeepsTree kept.old kept.new }
    ensures rest { RestAt (pass_of holder.new) kept.new }
    ensures walker { CanWalk shared.now pass.new }
{
    empty_row_spells_nothing();
    let met = empty(holder, kept, row, shared, pass);
    kept.shrinker.remove(row);
    met
}

/// Empties the row that has a key, if any has it.
fn evict_key(
    holder: &mut Holder<'_>,
    kept: &mut Guarded,
    key: &Key<'_>,
    shared: &Shared,
    pass: &mut Pass,
) -> Option<Met>
    requires rest { RestAt (pass_of holder.old) kept.old }
    requires walker { CanWalk shared.now pass.old }
    ensures same_reference { holder.new.pass.ghost_name ≡ holder.old.pass.ghost_name }
    ensures pass { OnlyWrites (pass_of holder.old) (pass_of holder.new) }
    ensures tree { KeepsTree kept.old kept.new }
    ensures rest { RestAt (pass_of holder.new) kept.new }
    ensures walker { CanWalk shared.now pass.new }
{
    let Some(row) = kept.index.row_of(key) else {
        return None;
    };
    Some(evict_row(holder, kept, row, shared, pass))
}

/// Gets the lock, empties the row that has a key while another pass looks up, and gives the lock back.
fn evict_under_lock(
    shared: &Shared,
    pass: &mut Pass,
    other: &mut Pass,
    key: &Key<'_>,
) -> Option<Met>
    requires pass { CanWalk shared.now pass.old }
    requires other { CanWalk shared.now other.old }
    ensures pass { CanWalk shared.now pass.new }
{
    let Ok((mut holder, mut guarded)) = shared.try_lock(other) else {
        return None;
    };
    let met = evict_key(&mut holder, &mut guarded, key, shared, pass);
    holder.give::<Nobody>(guarded);
    met
}

/// Whether the walk gives up if no other row tells of the key, and answers if one does. `None` if no row has the
/// key.
fn is_met<R: Wait>(
    rt: &R,
    alloc: Global,
    shared: &Shared,
    pass: &mut Pass,
    other: &mut Pass,
) -> Option<bool>
    requires pass { CanWalk shared.now pass.old }
    requires other { CanWalk shared.now other.old }
{
    let absent = Reply::Refused(2);
    let made = change(rt, alloc, shared, other, &mkdir(b"/a")) == Some((Reply::Done(2), 0));
    let filled = is_answered(
        &count(rt, alloc, shared, other, b"/a"),
        &Reply::Found(2, Kind::Dir),
        1,
    );
    let none = is_answered(&count(rt, alloc, shared, other, b"/b"), &absent, 1);
    let met = evict_under_lock(shared, pass, other, &in_root(b"a")?)?;
    let missed = matches!(look(shared, pass, b"/a"), Some(Fast::Again(Why::Miss(0))));
    let answered = is_answered(&look(shared, pass, b"/b"), &absent, 1);
    let busy = met.row == 0 && met.odd == 3 && met.busy && met.answered;
    Some(made && filled && none && busy && missed && answered)
}

#[test]
fn a_row_that_is_written_is_busy(rt: HostRuntime) {
    let (shared, mut p) = Shared::new(rt.alloc(), 1, 16).expect(&rt, "memory");
    let mut q = shared.split(&mut p);
    assert!(rt; is_met(&rt, rt.alloc(), &shared, &mut p, &mut q) == Some(true));
}
