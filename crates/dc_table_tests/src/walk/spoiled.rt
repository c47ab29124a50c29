//! Walks of three names by hand. At each place between the first note and the last check, all rows are once
//! emptied and filled again with the same words: also between a row's count and its words, and between two of
//! these. The walks are for a `Stat`, which rows never answer, so that no check ends one.

ghost use Rattle.std.specs.Prelude.{◌≡◌, ◌<◌, [], ◌∷◌, length, IfSome, IfOk};
ghost use Rattle.dc_events.specs.Effects.{begins};
ghost use Rattle.dc_names.specs.declared.limits.TheConstants.{ROW_WORDS};
ghost use Rattle.dc_plain.specs.Requests.{request_of};
ghost use Rattle.dc_plain.specs.Requests.Request.{Stat};
ghost use Rattle.dc_table.specs.Passes.{view, share, Fits, IsIdle, StaysOut};
ghost use Rattle.dc_walk.specs.Findings.{CanWalk};
ghost use Rattle.dc_walk.specs.Probes.{IsEarly, note_of, seen_whole, walk_with};

use super::probe::Words;
use super::{change, count, is_answered, look};
use crate::calls::mkdir;
use dc_names::Kind;
use dc_plain::{Call, Reply};
use dc_row::{ROW_WORDS, widened};
use dc_rows::shrink;
use dc_table::{Pass, Shared};
use dc_walk::Fast;
use std::alloc::Global;
use std::sync::Wait;
use std::test::Fail;

/// What checks found: an `Err` has the counts noted and found.
type Checks = [Result<(), (u64, u64)>; 3];

/// The path that is walked, whose names stand in rows 0, 1 and 2.
const PATH: &[u8] = b"/a/b/c";

/// Where the pivot is made: three rows have been read before. A row is read at as many places as it has words,
/// after each of them.
const PIVOT: usize = 3 * ROW_WORDS;

/// How many places there are: those of three rows, and after the pivot and all checks but the last.
const PLACES: usize = PIVOT + 3;

/// The first words of the rows, with count 0. The others are zero.
static FACTS: [[u64; 5]; 3] = [
    [0, 16_777_473, 1, 2, 97],
    [0, 16_777_473, 2, 3, 98],
    [0, 16_777_473, 3, 4, 99],
];

/// Whether the path led to the directory that was made last.
fn is_there(found: &Option<Fast>) -> bool {
    is_answered(found, &Reply::Found(4, Kind::Dir), 3)
}

/// Empties the rows and fills them again, if it is time. Says whether that was done as it should.
fn spoil<R: Wait>(rt: &R, alloc: Global, shared: &Shared, other: &mut Pass, now: bool) -> bool
    requires { CanWalk shared.now other.old }
    ensures { CanWalk shared.now other.new }
{
    if !now {
        return true;
    }
    let emptied = shrink(shared, rt, other, 4);
    let found = count(rt, alloc, shared, other, PATH);
    emptied == 3 && is_there(&found)
}

/// Notes a row and reads it whole, as `probe` does. At one place, if it is one of this row, the rows are spoiled.
/// `first` begins the walk of the call. An odd count is an `Err`, and so are rows that aren't spoiled as they should be.
fn read_row<R: Wait>(
    rt: &R,
    alloc: Global,
    shared: &Shared,
    pass: &mut Pass,
    other: &mut Pass,
    call: &Call<'_>,
    row: u64,
    first: bool,
    place: usize,
) -> Result<Words, u64>
    requires pass { Fits shared.now pass.old × IsIdle pass.old }
    requires other { CanWalk shared.now other.old }
    requires row { row < (share pass.old).rows }
    requires early { IsEarly (begins first (view pass.old) (request_of call.now)) }
    ensures same { StaysOut pass.old pass.new }
    ensures other { CanWalk shared.now other.new }
    ensures whole { IfOk result (λ words. length words ≡ ROW_WORDS) }
    ensures read { IfOk result (λ words. view pass.new
        ≡ seen_whole (begins first (view pass.old) (request_of call.now)) row words) }
{
    let reader = shared.reader();
    let begun = place.checked_sub((row as usize).saturating_mul(ROW_WORDS));
    let mut words = [0; ROW_WORDS];
    words[0] = reader.note(pass, call, row, first)?;
    let mut all = spoil(rt, alloc, shared, other, begun == Some(0));
    for i in 1..ROW_WORDS {
        words[i] = reader.read_word(pass, row, i as u64);
        all &= spoil(rt, alloc, shared, other, begun == Some(i));
    }
    if all { Ok(words) } else { Err(0) }
}

/// Begins a walk, and notes rows 0 and 1.
fn note_two<R: Wait>(
    rt: &R,
    alloc: Global,
    shared: &Shared,
    pass: &mut Pass,
    other: &mut Pass,
    path: &[u8],
    place: usize,
) -> Option<(Words, Words)>
    requires can { CanWalk shared.now pass.old × (3 < (share pass.old).rows) }
    requires other { CanWalk shared.now other.old }
    ensures can { CanWalk shared.now pass.new × (3 < (share pass.new).rows) }
    ensures other { CanWalk shared.now other.new }
    ensures noted { IfSome result (λ words. (view pass.new).walk ≡ walk_with (Stat 1 path.now)
        (note_of 0 words.0 ∷ note_of 1 words.1 ∷ [])) }
{
    let call = Call::Stat { base: 1, path };
    let first = read_row(rt, alloc, shared, pass, other, &call, 0, true, place).ok()?;
    let second = read_row(rt, alloc, shared, pass, other, &call, 1, false, place).ok()?;
    Some((first, second))
}

/// Notes row 2 for a walk that noted two, makes its pivot, and checks the three. It answers the words of
/// row 2 and what each check found.
fn turn<R: Wait>(
    rt: &R,
    alloc: Global,
    shared: &Shared,
    pass: &mut Pass,
    other: &mut Pass,
    path: &[u8],
    place: usize,
    noted: &(Words, Words),
) -> Option<(Words, Checks)>
    requires can { CanWalk shared.now pass.old × (3 < (share pass.old).rows) }
    requires other { CanWalk shared.now other.old }
    requires noted { (view pass.old).walk ≡ walk_with (Stat 1 path.now)
        (note_of 0 noted.now.0 ∷ note_of 1 noted.now.1 ∷ []) }
    ensures can { CanWalk shared.now pass.new × (3 < (share pass.new).rows) }
    ensures other { CanWalk shared.now other.new }
{
    let call = Call::Stat { base: 1, path };
    let Ok(last) = read_row(rt, alloc, shared, pass, other, &call, 2, false, place) else {
        return None;
    };
    let at = shared.reader().pivot(pass, &call, false);
    let pivoted = spoil(rt, alloc, shared, other, place == PIVOT);
    let first = shared.reader().check(pass, 0, 0, noted.0[0]);
    let checked = spoil(rt, alloc, shared, other, place == PIVOT + 1);
    let second = shared.reader().check(pass, 1, 1, noted.1[0]);
    let checked_two = spoil(rt, alloc, shared, other, place == PIVOT + 2);
    let third = shared.reader().check(pass, 2, 2, last[0]);
    if pivoted && checked && checked_two && at == 3 {
        Some((last, [first, second, third]))
    } else {
        None
    }
}

/// Whether a row was read with the count that its place has, and with the words that it has at all times.
fn is_row(words: &Words, row: usize, count: u64) -> bool {
    words[0] == count
        && FACTS
            .get(row)
            .is_some_and(|fact| words[1..] == widened(fact)[1..])
}

/// What a check of the row finds: that it was filled again since it was noted, or not.
fn wanted(row: usize, place: usize) -> Result<(), (u64, u64)> {
    let spoiled_after_note = row.saturating_mul(ROW_WORDS) <= place;
    let spoiled_before_check = place <= row.saturating_add(PIVOT);
    if spoiled_after_note && spoiled_before_check {
        Err((2, 6))
    } else {
        Ok(())
    }
}

/// Makes `/a`, `/a/b` and `/a/b/c`, and fills rows 0, 1 and 2 with them.
fn make_three<R: Wait>(rt: &R, alloc: Global, shared: &Shared, pass: &mut Pass) -> bool
    requires { CanWalk shared.now pass.old }
    ensures { CanWalk shared.now pass.new }
{
    let first = change(rt, alloc, shared, pass, &mkdir(b"/a"));
    let second = change(rt, alloc, shared, pass, &mkdir(b"/a/b"));
    let third = change(rt, alloc, shared, pass, &mkdir(PATH));
    let found = count(rt, alloc, shared, pass, PATH);
    first.is_some() && second.is_some() && third.is_some() && is_there(&found)
}

/// Whether a walk by hand over a table of its own, whose rows are spoiled at a place, finds what it should;
/// and whether a look-up afterwards answers as before.
fn is_seen<R: Wait>(rt: &R, alloc: Global, place: usize) -> Option<bool> {
    let (shared, mut pass) = Shared::new(alloc, 1, 16).ok()?;
    let mut other = shared.split(&mut pass);
    let made = make_three(rt, alloc, &shared, &mut other);
    let noted = note_two(rt, alloc, &shared, &mut pass, &mut other, PATH, place)?;
    let (last, found) = turn(
        rt, alloc, &shared, &mut pass, &mut other, PATH, place, &noted,
    )?;
    let counts = [
        2,
        if place < ROW_WORDS { 6 } else { 2 },
        if place < 2 * ROW_WORDS { 6 } else { 2 },
    ];
    let read = is_row(&noted.0, 0, counts[0])
        && is_row(&noted.1, 1, counts[1])
        && is_row(&last, 2, counts[2]);
    let told = found == [wanted(0, place), wanted(1, place), wanted(2, place)];
    let again = is_there(&look(&shared, &mut pass, PATH));
    Some(made && read && told && found.iter().any(Result::is_err) && again)
}

#[test]
fn spoiled_rows_are_seen_at_each_place(rt: HostRuntime) -> Result<(), Fail> {
    for place in 0..PLACES {
        assert!(rt;
            is_seen(&rt, rt.alloc(), place) == Some(true),
            "place {place}"
        );
    }
    Ok(())
}
