//! Steps of one pass, one after the other, and what each comes to.

ghost use Rattle.dc_cache.specs.Passes.{Fits, IsChange};

use crate::answers::{Want, create, is, is_made, link, mkdir, rename, rmdir, symlink, unlink};
use dc_cache::{
    Call, ChangeFault, Dcache, Fast, Follow, NoMemory, Pass, ROOT, Stamped, Why, parse,
};
use std::alloc::Global;
use std::sync::Wait;
use std::test::Fail;

/// A change from the root.
#[derive(Clone, Copy)]
pub enum Act<'a> {
    Mkdir(&'a [u8]),
    Create(&'a [u8]),
    /// A text, and the path of the link that has it.
    Symlink(&'a [u8], &'a [u8]),
    Unlink(&'a [u8]),
    Rmdir(&'a [u8]),
    /// The old path and the new one.
    Link(&'a [u8], &'a [u8]),
    Rename(&'a [u8], &'a [u8]),
}

/// A step from the root, then its reply and point.
#[derive(Clone, Copy)]
pub enum Step<'a> {
    Change(Act<'a>, Want<'a>, u64),
    Look(&'a [u8], Follow, Want<'a>, u64),
    /// A look-up that fills the rows of its whole path.
    Filled(&'a [u8], Want<'a>, u64),
    /// A look-up that fills and pins a row for each name.
    Counted(&'a [u8], Want<'a>, u64),
    Stat(&'a [u8], Want<'a>, u64),
    Readlink(&'a [u8], Want<'a>, u64),
    List(&'a [u8], Want<'a>, u64),
    /// A walk by the rows alone.
    Fast(&'a [u8], Want<'a>, u64),
    /// A walk by the rows alone that has no answer, and why.
    Again(&'a [u8], Why),
    /// At most how many rows are to be emptied, and how many are.
    Shrink(u64, u64),
    /// Without waiting, while the lock is free.
    Try(Tried<'a>),
}

/// A step that never waits, then its reply and point.
#[derive(Clone, Copy)]
pub enum Tried<'a> {
    Change(Act<'a>, Want<'a>, u64),
    Look(&'a [u8], Follow, Want<'a>, u64),
    /// A look-up that asks the rows first.
    Resolve(&'a [u8], Follow, Want<'a>, u64),
    Stat(&'a [u8], Want<'a>, u64),
    Readlink(&'a [u8], Want<'a>, u64),
    List(&'a [u8], Want<'a>, u64),
    /// At most how many rows are to be emptied, and how many are.
    Shrink(u64, u64),
}

pub fn call_of<'a>(act: Act<'a>) -> Call<'a>
    ensures { IsChange result }
{
    match act {
        Act::Mkdir(path) => mkdir(path),
        Act::Create(path) => create(path),
        Act::Symlink(text, path) => symlink(text, path),
        Act::Unlink(path) => unlink(path),
        Act::Rmdir(path) => rmdir(path),
        Act::Link(old, new) => link(old, new),
        Act::Rename(old, new) => rename(old, new),
    }
}

/// What the fast walk of a path from the root comes to, or `None` if the text is no path.
fn look_fast(cache: &Dcache, pass: &mut Pass, text: &[u8]) -> Option<Fast>
    requires { Fits cache.now pass.old }
    ensures { Fits cache.now pass.new }
{
    Some(cache.look_fast(pass, ROOT, parse(text).ok()?, Follow::Yes))
}

/// What the counted walk of a path from the root comes to, or `None` if the text is no path.
fn look_counted<R: Wait>(
    rt: &R,
    alloc: Global,
    cache: &Dcache,
    pass: &mut Pass,
    text: &[u8],
) -> Option<Fast>
    requires { Fits cache.now pass.old }
    ensures { Fits cache.now pass.new }
{
    Some(cache.look_counted(rt, alloc, pass, ROOT, parse(text).ok()?, Follow::Yes))
}

/// Looks a path from the root up.
fn look<R: Wait>(
    rt: &R,
    alloc: Global,
    cache: &Dcache,
    pass: &mut Pass,
    path: &[u8],
    follow: Follow,
) -> Stamped
    requires { Fits cache.now pass.old }
    ensures { Fits cache.now pass.new }
{
    cache.look(rt, alloc, pass, ROOT, path, follow)
}

/// Looks a path from the root up so that its rows are filled.
fn resolve<R: Wait>(rt: &R, alloc: Global, cache: &Dcache, pass: &mut Pass, path: &[u8]) -> Stamped
    requires { Fits cache.now pass.old }
    ensures { Fits cache.now pass.new }
{
    cache.resolve(rt, alloc, pass, ROOT, path, Follow::Yes)
}

/// Whether a walk was answered so.
fn is_done(found: &Option<Fast>, want: Want<'_>, at: u64) -> bool {
    match found {
        Some(Fast::Done(stamped)) => is(stamped, want, at),
        _ => false,
    }
}

/// Whether a walk had no answer, for this reason.
fn is_again(found: &Option<Fast>, why: Why) -> bool {
    match found {
        Some(Fast::Again(found)) => *found == why,
        _ => false,
    }
}

/// Whether a read was answered so.
pub fn is_told(told: &Result<Stamped, NoMemory>, want: Want<'_>, at: u64) -> bool {
    match told {
        Ok(stamped) => is(stamped, want, at),
        Err(_) => false,
    }
}

/// Whether a look-up that never waits was answered so.
pub fn is_found(found: &Option<Stamped>, want: Want<'_>, at: u64) -> bool {
    match found {
        Some(found) => is(found, want, at),
        None => false,
    }
}

/// Whether a read that never waits was answered so.
fn is_read(told: &Option<Result<Stamped, NoMemory>>, want: Want<'_>, at: u64) -> bool {
    match told {
        Some(told) => is_told(told, want, at),
        None => false,
    }
}

/// Whether a change that never waits was answered so.
pub fn is_changed(made: &Option<Result<Stamped, ChangeFault>>, want: Want<'_>, at: u64) -> bool {
    match made {
        Some(made) => is_made(made, want, at),
        None => false,
    }
}

/// Whether a look-up that never waits comes to what it should.
fn is_tried_look(alloc: Global, cache: &Dcache, pass: &mut Pass, tried: &Tried<'_>) -> bool
    requires { Fits cache.now pass.old }
    ensures { Fits cache.now pass.new }
{
    match tried {
        Tried::Look(path, follow, want, at) => {
            is_found(
                &cache.try_look(alloc, pass, ROOT, path, *follow),
                *want,
                *at,
            )
        }
        Tried::Resolve(path, follow, want, at) => {
            is_found(
                &cache.try_resolve(alloc, pass, ROOT, path, *follow),
                *want,
                *at,
            )
        }
        _ => is_tried_read(alloc, cache, pass, tried),
    }
}

/// Whether a read that never waits comes to what it should.
fn is_tried_read(alloc: Global, cache: &Dcache, pass: &mut Pass, tried: &Tried<'_>) -> bool
    requires { Fits cache.now pass.old }
    ensures { Fits cache.now pass.new }
{
    match tried {
        Tried::Stat(path, want, at) => is_found(&cache.try_stat(pass, ROOT, path), *want, *at),
        Tried::Readlink(path, want, at) => {
            is_read(&cache.try_readlink(alloc, pass, ROOT, path), *want, *at)
        }
        Tried::List(path, want, at) => {
            is_read(&cache.try_list(alloc, pass, ROOT, path), *want, *at)
        }
        _ => false,
    }
}

/// Whether a step that never waits comes to what it should.
fn is_tried(alloc: Global, cache: &Dcache, pass: &mut Pass, tried: &Tried<'_>) -> bool
    requires { Fits cache.now pass.old }
    ensures { Fits cache.now pass.new }
{
    match tried {
        Tried::Change(act, want, at) => {
            is_changed(&cache.try_change(alloc, pass, &call_of(*act)), *want, *at)
        }
        Tried::Shrink(most, emptied) => cache.try_shrink(pass, *most) == Some(*emptied),
        _ => is_tried_look(alloc, cache, pass, tried),
    }
}

/// Whether a walk by the rows alone, or a step that never waits, comes to what it should.
pub fn is_soon(alloc: Global, cache: &Dcache, pass: &mut Pass, step: &Step<'_>) -> bool
    requires { Fits cache.now pass.old }
    ensures { Fits cache.now pass.new }
{
    match step {
        Step::Fast(path, want, at) => is_done(&look_fast(cache, pass, path), *want, *at),
        Step::Again(path, why) => is_again(&look_fast(cache, pass, path), *why),
        Step::Try(tried) => is_tried(alloc, cache, pass, tried),
        _ => false,
    }
}

/// Whether a read or a shrinking comes to what it should.
fn is_told_so<R: Wait>(
    rt: &R,
    alloc: Global,
    cache: &Dcache,
    pass: &mut Pass,
    step: &Step<'_>,
) -> bool
    requires { Fits cache.now pass.old }
    ensures { Fits cache.now pass.new }
{
    match step {
        Step::Stat(path, want, at) => is(&cache.stat(rt, pass, ROOT, path), *want, *at),
        Step::Readlink(path, want, at) => {
            is_told(&cache.readlink(rt, alloc, pass, ROOT, path), *want, *at)
        }
        Step::List(path, want, at) => {
            is_told(&cache.list(rt, alloc, pass, ROOT, path), *want, *at)
        }
        Step::Shrink(most, emptied) => cache.shrink(rt, pass, *most) == *emptied,
        _ => is_soon(alloc, cache, pass, step),
    }
}

/// Whether a step comes to what it should.
pub fn is_so<R: Wait>(
    rt: &R,
    alloc: Global,
    cache: &Dcache,
    pass: &mut Pass,
    step: &Step<'_>,
) -> bool
    requires { Fits cache.now pass.old }
    ensures { Fits cache.now pass.new }
{
    match step {
        Step::Change(act, want, at) => {
            is_made(&cache.change(rt, alloc, pass, &call_of(*act)), *want, *at)
        }
        Step::Look(path, follow, want, at) => {
            is(&look(rt, alloc, cache, pass, path, *follow), *want, *at)
        }
        Step::Filled(path, want, at) => { is(&resolve(rt, alloc, cache, pass, path), *want, *at) }
        Step::Counted(path, want, at) => {
            is_done(&look_counted(rt, alloc, cache, pass, path), *want, *at)
        }
        _ => is_told_so(rt, alloc, cache, pass, step),
    }
}

/// Takes the steps one after the other. Answers which one, counted from 0, came to something else, or
/// `None` if each came to what it should.
pub fn first_other<R: Wait>(
    rt: &R,
    alloc: Global,
    cache: &Dcache,
    pass: &mut Pass,
    steps: &[Step<'_>],
) -> Option<usize>
    requires { Fits cache.now pass.old }
    ensures { Fits cache.now pass.new }
{
    for (number, step) in steps.iter().enumerate() {
        if !is_so(rt, alloc, cache, pass, step) {
            return Some(number);
        }
    }
    None
}

/// Takes the steps one after the other, and fails if one comes to something else.
pub fn play<R: Wait>(
    rt: &R,
    alloc: Global,
    cache: &Dcache,
    pass: &mut Pass,
    steps: &[Step<'_>],
) -> Result<(), Fail>
    requires { Fits cache.now pass.old }
    ensures { Fits cache.now pass.new }
{
    match first_other(rt, alloc, cache, pass, steps) {
        Some(number) => Err(Fail::from(("step", number))),
        None => Ok(()),
    }
}

/// Takes the steps with the first pass of a new cache of this many buckets and inodes, and fails if one
/// comes to something else.
pub fn play_anew<R: Wait>(
    rt: &R,
    alloc: Global,
    buckets: u64,
    max_inodes: u64,
    steps: &[Step<'_>],
) -> Result<(), Fail> {
    let (cache, mut pass) = Dcache::new(alloc, buckets, max_inodes)?;
    play(rt, alloc, &cache, &mut pass, steps)
}
