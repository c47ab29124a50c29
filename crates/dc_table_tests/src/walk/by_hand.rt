//! Walks by hand, whose rows change between their steps. They are for a `Stat`, which rows never answer,
//! so that no check ends one.

ghost use Rattle.std.specs.Prelude.{◌≡◌, ◌<◌, [], ◌∷◌, IfSome};
ghost use Rattle.dc_plain.specs.Requests.Request.{Stat};
ghost use Rattle.dc_table.specs.Passes.{view, share};
ghost use Rattle.dc_walk.specs.Findings.{CanWalk};
ghost use Rattle.dc_walk.specs.Probes.{note_of, walk_with};

use super::probe::{Words, probe};
use super::{change, count, is_answered, look};
use crate::calls::{create, mkdir, rename};
use dc_names::Kind;
use dc_plain::{Call, Reply};
use dc_row::widened;
use dc_table::{Pass, Shared};
use std::alloc::Global;
use std::sync::Wait;

/// What checks of the three rows find.
type Checks = [Result<(), (u64, u64)>; 3];

/// Begins a walk, and notes rows 0 and 1.
pub(super) fn note_two(shared: &Shared, pass: &mut Pass, path: &[u8]) -> Option<(Words, Words)>
    requires can { CanWalk shared.now pass.old × (3 < (share pass.old).rows) }
    ensures can { CanWalk shared.now pass.new × (3 < (share pass.new).rows) }
    ensures noted { IfSome result (λ words. (view pass.new).walk ≡ walk_with (Stat 1 path.now)
        (note_of 0 words.0 ∷ note_of 1 words.1 ∷ [])) }
{
    let call = Call::Stat { base: 1, path };
    let first = probe(shared.reader(), pass, &call, 0, true).ok()?;
    let second = probe(shared.reader(), pass, &call, 1, false).ok()?;
    Some((first, second))
}

/// Notes row 3 for a walk that noted two, makes its pivot, and checks the three. It answers the words
/// of row 3, the pivot, and what each check found.
pub(super) fn turn(
    shared: &Shared,
    pass: &mut Pass,
    path: &[u8],
    noted: &(Words, Words),
) -> Option<(Words, u64, Checks)>
    requires can { CanWalk shared.now pass.old × (3 < (share pass.old).rows) }
    requires noted { (view pass.old).walk ≡ walk_with (Stat 1 path.now)
        (note_of 0 noted.now.0 ∷ note_of 1 noted.now.1 ∷ []) }
    ensures can { CanWalk shared.now pass.new }
{
    let call = Call::Stat { base: 1, path };
    let Ok(last) = probe(shared.reader(), pass, &call, 3, false) else {
        return None;
    };
    let at = shared.reader().pivot(pass, &call, false);
    let first = shared.reader().check(pass, 0, 0, noted.0[0]);
    let second = shared.reader().check(pass, 1, 1, noted.1[0]);
    let third = shared.reader().check(pass, 2, 3, last[0]);
    Some((last, at, [first, second, third]))
}

/// A directory that is renamed away from a path, the file that is made below it, and what the checks find. Of one
/// further up its own row alone tells.
static MOVES: [(&[u8], &[u8], Checks); 2] = [
    (b"/a/d", b"/b/f", [Ok(()), Err((2, 4)), Ok(())]),
    (b"/a", b"/b/d/f", [Err((2, 4)), Ok(()), Ok(())]),
];

/// Whether a walk that noted two rows before a directory was renamed away sees that. The path with the old name of
/// the directory and the new name of the file never was. `None` if memory is refused or a row is odd.
fn is_seen<R: Wait>(
    rt: &R,
    alloc: Global,
    old: &[u8],
    file: &[u8],
    checks: &Checks,
) -> Option<bool> {
    let (shared, mut pass) = Shared::new(alloc, 1, 16).ok()?;
    let mut other = shared.split(&mut pass);
    let made = make_two(rt, alloc, &shared, &mut other);
    let noted = note_two(&shared, &mut pass, b"/a/d/f")?;
    let moved = move_away(rt, alloc, &shared, &mut other, old, file);
    let (last, at, found) = turn(&shared, &mut pass, b"/a/d/f", &noted)?;
    let gone = is_answered(&look(&shared, &mut pass, b"/a/d/f"), &Reply::Refused(2), 4);
    let read = noted.0 == widened(&[2, 16_777_473, 1, 2, 97])
        && noted.1 == widened(&[2, 16_777_473, 2, 3, 100])
        && last == widened(&[2, 33_554_689, 3, 4, 102]);
    Some(made && moved && gone && read && at == 4 && found == *checks)
}

#[test]
fn a_path_that_never_was_is_not_answered(rt: HostRuntime) {
    for (old, file, checks) in MOVES.iter() {
        assert!(rt;
            is_seen(&rt, rt.alloc(), old, file, checks) == Some(true),
            "{old:?}"
        );
    }
}

/// Renames a directory to `/b`, and creates a file below it, whose path is looked up by rows that are
/// filled.
fn move_away<R: Wait>(
    rt: &R,
    alloc: Global,
    shared: &Shared,
    pass: &mut Pass,
    old: &[u8],
    file: &[u8],
) -> bool
    requires { CanWalk shared.now pass.old }
    ensures { CanWalk shared.now pass.new }
{
    let moved = change(rt, alloc, shared, pass, &rename(old, b"/b"));
    let created = change(rt, alloc, shared, pass, &create(file));
    let found = count(rt, alloc, shared, pass, file);
    moved == Some((Reply::Unit, 2))
        && created == Some((Reply::Done(4), 3))
        && is_answered(&found, &Reply::Found(4, Kind::File), 4)
}

/// Makes `/a` and `/a/d`, and fills rows 0 and 1 with them.
pub(super) fn make_two<R: Wait>(rt: &R, alloc: Global, shared: &Shared, pass: &mut Pass) -> bool
    requires { CanWalk shared.now pass.old }
    ensures { CanWalk shared.now pass.new }
{
    let first = change(rt, alloc, shared, pass, &mkdir(b"/a"));
    let second = change(rt, alloc, shared, pass, &mkdir(b"/a/d"));
    let found = count(rt, alloc, shared, pass, b"/a/d");
    first == Some((Reply::Done(2), 0))
        && second == Some((Reply::Done(3), 1))
        && is_answered(&found, &Reply::Found(3, Kind::Dir), 2)
}
