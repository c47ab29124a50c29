//! Steps of one pass over a table, one after the other, and what each comes to.

ghost use Rattle.dc_ops.specs.Asked.{IsChange};
ghost use Rattle.dc_walk.specs.Findings.{CanWalk};

use super::{change, count, in_root, look};
use crate::calls::{create, mkdir, rename};
use dc_index::HashedKey;
use dc_names::Kind;
use dc_plain::{Call, Reply, Stamped};
use dc_rows::{pin, shrink, unpin_all};
use dc_table::{Pass, Shared};
use dc_walk::{Fast, Why};
use std::alloc::Global;
use std::sync::Wait;

/// A change from the root.
#[derive(Clone, Copy)]
pub(super) enum Act {
    Mkdir(&'static [u8]),
    Create(&'static [u8]),
    /// A text, and the path of the link that has it.
    Symlink(&'static [u8], &'static [u8]),
    Rename(&'static [u8], &'static [u8]),
}

impl Act {
    /// The call itself.
    fn call(self) -> Call<'static>
        ensures { IsChange result }
    {
        match self {
            Act::Mkdir(path) => mkdir(path),
            Act::Create(path) => create(path),
            Act::Symlink(text, path) => Call::Symlink {
                base: 1,
                text,
                path,
            },
            Act::Rename(old, new) => rename(old, new),
        }
    }
}

/// A reply that is wanted.
#[derive(Clone, Copy)]
pub(super) enum Want {
    Found(u64, Kind),
    Done(u64),
    Unit,
    Refused(u64),
}

impl Want {
    /// Whether a reply is this one.
    fn is(self, reply: &Reply) -> bool {
        match (self, reply) {
            (Want::Found(number, kind), Reply::Found(found, other)) => {
                number == *found && kind == *other
            }
            (Want::Done(number), Reply::Done(made)) => number == *made,
            (Want::Unit, Reply::Unit) => true,
            (Want::Refused(number), Reply::Refused(told)) => number == *told,
            _ => false,
        }
    }
}

/// A step, and what it comes to.
#[derive(Clone, Copy)]
pub(super) enum Step {
    /// A change, its reply and point.
    Change(Act, Want, u64),
    /// A walk by the rows alone, its reply and point.
    Look(&'static [u8], Want, u64),
    /// One that has no answer, and why.
    Lost(&'static [u8], Why),
    /// A walk that fills and pins rows, its reply and point.
    Count(&'static [u8], Want, u64),
    /// One that has no answer, and why.
    CountLost(&'static [u8], Why),
    /// A name in the root, and the row that is pinned for it.
    Pin(&'static [u8], u64),
    /// A pin is taken from each of these rows.
    Unpin(&'static [u64]),
    /// This many rows are to be emptied at most, and this many are.
    Shrink(u64, u64),
    /// The pass learns of this point.
    Learn(u64),
}

/// Whether a walk was answered so.
fn is_done(found: &Option<Fast>, want: Want, at: u64) -> bool {
    match found {
        Some(Fast::Done(Stamped { reply, at: found })) => want.is(reply) && *found == at,
        _ => false,
    }
}

/// Whether a walk had no answer, for this reason.
fn is_lost(found: &Option<Fast>, why: Why) -> bool {
    match found {
        Some(Fast::Again(found)) => *found == why,
        _ => false,
    }
}

/// Whether a change was answered so.
fn is_made(made: &Option<(Reply, u64)>, want: Want, at: u64) -> bool {
    match made {
        Some((reply, point)) => want.is(reply) && *point == at,
        None => false,
    }
}

/// Whether this row is pinned for a name in the root.
fn is_pinned<R: Wait>(
    rt: &R,
    alloc: Global,
    shared: &Shared,
    pass: &mut Pass,
    name: &[u8],
    row: u64,
) -> bool
    requires { CanWalk shared.now pass.old }
    ensures { CanWalk shared.now pass.new }
{
    match in_root(name) {
        Some(key) => match pin(shared, rt, alloc, pass, &HashedKey::new(key)) {
            Ok(pinned) => pinned == Some(row),
            Err(_) => false,
        },
        None => false,
    }
}

/// Whether a step comes to what it should.
fn is_so<R: Wait>(rt: &R, alloc: Global, shared: &Shared, pass: &mut Pass, step: &Step) -> bool
    requires { CanWalk shared.now pass.old }
    ensures { CanWalk shared.now pass.new }
{
    match step {
        Step::Change(act, want, at) => {
            is_made(&change(rt, alloc, shared, pass, &act.call()), *want, *at)
        }
        Step::Look(path, want, at) => is_done(&look(shared, pass, path), *want, *at),
        Step::Lost(path, why) => is_lost(&look(shared, pass, path), *why),
        Step::Count(path, want, at) => {
            is_done(&count(rt, alloc, shared, pass, path), *want, *at)
        }
        Step::CountLost(path, why) => is_lost(&count(rt, alloc, shared, pass, path), *why),
        Step::Pin(name, row) => is_pinned(rt, alloc, shared, pass, name, *row),
        Step::Unpin(rows) => {
            unpin_all(shared, rt, pass, rows);
            true
        }
        Step::Shrink(most, emptied) => shrink(shared, rt, pass, *most) == *emptied,
        Step::Learn(at) => shared.learn(pass) == *at,
    }
}

/// Takes the steps one after the other. It tells which one, counted from 0, came to something else,
/// or `None` if each came to what it should.
pub(super) fn play<R: Wait>(
    rt: &R,
    alloc: Global,
    shared: &Shared,
    pass: &mut Pass,
    steps: &[Step],
) -> Option<usize>
    requires { CanWalk shared.now pass.old }
    ensures { CanWalk shared.now pass.new }
{
    for (number, step) in steps.iter().enumerate() {
        if !is_so(rt, alloc, shared, pass, step) {
            return Some(number);
        }
    }
    None
}

/// Takes the steps as `play` does, over a new table of this many buckets. Without memory for the table the
/// first step fails.
pub(super) fn play_anew<R: Wait>(
    rt: &R,
    alloc: Global,
    buckets: u64,
    steps: &[Step],
) -> Option<usize> {
    match Shared::new(alloc, buckets, 16) {
        Ok((shared, mut pass)) => play(rt, alloc, &shared, &mut pass, steps),
        Err(_) => Some(0),
    }
}
