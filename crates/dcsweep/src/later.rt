//! What is asked of a cache behind a trial, so that all that it has is compared with what another has.

ghost use Rattle.dc_cache.specs.Passes.{Fits};

use crate::fault::Fault;
use crate::ways::answer;
use dc_cache::{Dcache, Fast, Follow, Pass, ROOT, Store, parse};
use dc_lang::{Line, call, read_lines};
use std::alloc::Global;
use std::sync::Wait;

/// Reads of the tree by all its paths, and changes of all of its parts.
const LATER: &str = "0 list /\n0 list /d\n0 list /e\n0 list /d/n\n0 stat /\n0 stat /d\n0 stat /e\n\
    0 stat /d/f\n0 stat /d/g\n0 stat /d/n\n0 stat /f\n0 stat /g\n0 stat /e/n\n0 stat /e/f\n0 readlink /s\n\
    0 readlink /t\n0 readlink /d/t\n0 look /s/f\n0 look /t/g\n0 look /d/n/..\n0 look /e/..\n\
    0 mkdir /later\n0 create /later/c\n0 rename /d /later/d\n0 symlink later/d /l\n0 link /l/f /later/h\n\
    0 look /l/f\n0 list /\n0 list /later\n0 list /l\n0 unlink /later/h\n0 stat /later/d/f\n";

/// Names that are nowhere.
const ABSENT: [&[u8]; 4] = [b"/1", b"/2", b"/3", b"/4"];

/// Whether four names that are nowhere get the four rows of the one bucket, so that none is pinned.
pub fn are_unpinned<R: Wait>(rt: &R, alloc: Global, cache: &Dcache, pass: &mut Pass) -> bool
    requires { Fits cache.now pass.old }
    ensures { Fits cache.now pass.new }
{
    for path in ABSENT {
        let _found = cache.look(rt, alloc, pass, ROOT, path, Follow::Yes);
    }
    for path in ABSENT {
        let Ok(text) = parse(path) else {
            return false;
        };
        let Fast::Done(_) = cache.look_fast(pass, ROOT, text, Follow::Yes) else {
            return false;
        };
    }
    true
}

/// Whether two caches answer the same from now on.
pub fn answer_alike<R: Wait>(
    rt: &R,
    alloc: Global,
    cache: &Dcache,
    pass: &mut Pass,
    twin: &Dcache,
    other: &mut Pass,
) -> Result<bool, Fault>
    requires pass { Fits cache.now pass.old }
    requires other { Fits twin.now other.old }
    ensures pass { Fits cache.now pass.new }
    ensures other { Fits twin.now other.new }
{
    let lines = read_lines(alloc, LATER.as_bytes())?;
    for line in &lines {
        let Line::Command(command) = line else {
            return Err(Fault::Words);
        };
        let asked = call(command, ROOT);
        let one = answer(rt, alloc, cache, pass, &asked);
        if one.is_err() || one != answer(rt, alloc, twin, other, &asked) {
            return Ok(false);
        }
    }
    Ok(true)
}

/// Whether two caches end with as many inodes, numbers and changes.
pub fn end_alike(cache: Dcache, pass: Pass, twin: Dcache, other: Pass) -> bool
    requires pass { Fits cache pass }
    requires other { Fits twin other }
{
    match (cache.close(pass), twin.close(other)) {
        (Some(one), Some(two)) => {
            one.clock == two.clock
                && one.store.live() == two.store.live()
                && one.store.next() == two.store.next()
        }
        _ => false,
    }
}
