//! What walks pass through, over fixed answers.

use super::{NoPath, PARENTS, ROWS, TEXTS, new_fixed};
use dc_names::{Kind, Refusal, parse};
use dc_plain::Follow;
use dc_resolve::Walked;
use dc_trail::{Halt, walk_along};
use std::test::Fail;

/// How a walk ends that keeps its trail.
#[derive(Clone, Copy)]
enum Ends {
    At(u64, Kind),
    Refused(Refusal),
    /// Its finder gave up.
    Stopped,
    /// It has too few places.
    Full,
}

impl Ends {
    /// Whether a walk ended so.
    fn is(self, told: &Result<(Walked, usize), Halt<NoPath>>) -> bool {
        match (self, told) {
            (Ends::At(number, kind), Ok((Walked::Found(found), _))) => *found == (number, kind),
            (Ends::Refused(refusal), Ok((Walked::Refused(found), _))) => refusal == *found,
            (Ends::Stopped, Err(Halt::Finder(NoPath))) => true,
            (Ends::Full, Err(Halt::Full)) => true,
            _ => false,
        }
    }
}

/// A starting number, a path, how many places there are, how the walk ends, and its trail. A last link
/// is followed.
static TRAILS: [(u64, &[u8], usize, Ends, &[u64]); 21] = [
    (1, b"/d/e", 8, Ends::At(4, Kind::Dir), &[1, 2]),
    (1, b"/d/f", 2, Ends::At(3, Kind::File), &[1, 2]),
    (1, b"/d/f", 1, Ends::Full, &[]),
    (1, b"/d", 0, Ends::Full, &[]),
    (1, b"/", 0, Ends::At(1, Kind::Dir), &[]),
    (1, b"/.././/", 0, Ends::At(1, Kind::Dir), &[]),
    // A name that is missing, and what is below a file.
    (1, b"/none/e", 8, Ends::Refused(Refusal::NotFound), &[1]),
    (
        1,
        b"/d/e/none/f",
        8,
        Ends::Refused(Refusal::NotFound),
        &[1, 2, 4],
    ),
    (
        1,
        b"/d/f/e",
        8,
        Ends::Refused(Refusal::NotDirectory),
        &[1, 2],
    ),
    (
        1,
        b"/d/f/",
        8,
        Ends::Refused(Refusal::NotDirectory),
        &[1, 2],
    ),
    // Dot-dot leads out of a directory that is asked in; a dot asks nothing.
    (1, b"/d/e/..", 8, Ends::At(2, Kind::Dir), &[1, 2, 4]),
    (1, b"/d/e/../f", 3, Ends::At(3, Kind::File), &[1, 2, 4]),
    (1, b"/d/e/.", 8, Ends::At(4, Kind::Dir), &[1, 2]),
    // From a starting directory, which is asked in first.
    (4, b"../f", 8, Ends::At(3, Kind::File), &[4, 2]),
    (4, b".", 8, Ends::At(4, Kind::Dir), &[4]),
    (4, b"/d", 8, Ends::At(2, Kind::Dir), &[1]),
    (99, b"f", 8, Ends::Refused(Refusal::NotFound), &[99]),
    // Through a relative link in the root, and an absolute one below it.
    (1, b"/r/up", 8, Ends::Stopped, &[]),
    (2, b"a/..", 8, Ends::At(2, Kind::Dir), &[2, 1, 4]),
    (1, b"/l", 8, Ends::Refused(Refusal::TooManyLinks), &[1]),
    (1, b"/c7/p", 8, Ends::At(3, Kind::File), &[1, 2, 4]),
];

/// Fails if a walk ends otherwise, or passes through something else.
fn trail_all() -> Result<(), Fail> {
    for (base, path, places, want, trail) in TRAILS.iter() {
        let mut finder = new_fixed(&ROWS, &PARENTS, &TEXTS);
        let mut numbers = [77; 8];
        let told = walk_along(
            &mut finder,
            *base,
            parse(path)?,
            Follow::Yes,
            &mut numbers[..*places],
        );
        if !want.is(&told) {
            return Err(Fail::from(*path));
        }
        let Ok((_, many)) = told else {
            continue;
        };
        if &numbers[..many] != *trail {
            return Err(Fail::from(*path));
        }
    }
    Ok(())
}

#[test]
fn trails(_rt: HostRuntime) -> Result<(), Fail> {
    trail_all()
}
