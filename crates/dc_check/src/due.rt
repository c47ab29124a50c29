//! What the tree gives a call at its point.

ghost use Rattle.std.specs.Prelude.{◌≤◌, IfOk, IfSome};
ghost use Rattle.dc_names.specs.declared.limits.TheConstants.{MOST_INODES};
ghost use Rattle.dc_check.specs.Stamps.{stamps_of};
ghost use Rattle.dc_check.specs.Judges.{all_numbered};
ghost use Rattle.dc_check.specs.Due.{IsDue};

use crate::fault::Fault;
use crate::judge::Judge;
use crate::order::by_point;
use crate::stamp::{Numbered, Stamp};
use dc_names::NoMemory;
use dc_plain::Reply;
use std::alloc::Global;

/// What the tree gives a call at its point, by stamps that stand by theirs.
fn due_among(
    alloc: Global,
    max_inodes: u64,
    sorted: &[Numbered],
    stamp: &Stamp,
) -> Result<Option<Reply>, NoMemory>
    requires least { 1 ≤ max_inodes }
    requires most { max_inodes ≤ MOST_INODES }
    ensures { IfOk result (λ due. IfSome due
        (IsDue max_inodes (all_numbered sorted.now) stamp.now)) }
{
    let mut judge = Judge::new(alloc, max_inodes)?;
    for numbered in sorted {
        if numbered.stamp.at >= stamp.at {
            break;
        }
        match judge.take(alloc, *numbered) {
            Ok(_) => {}
            Err(Fault::NoMemory) => return Err(NoMemory),
            Err(_) => return Ok(None),
        }
    }
    match judge.due(alloc, stamp) {
        Ok(reply) => Ok(Some(reply)),
        Err(Fault::NoMemory) => Err(NoMemory),
        Err(_) => Ok(None),
    }
}

/// What the tree gives the call of one of the stamps at its point: at each point below it, the stamp that
/// altered the tree there led on. `None` if the stamps with lower points are at fault themselves.
pub fn reply_due(
    alloc: Global,
    max_inodes: u64,
    stamps: &[Stamp],
    stamp: &Stamp,
) -> Result<Option<Reply>, NoMemory>
    requires least { 1 ≤ max_inodes }
    requires most { max_inodes ≤ MOST_INODES }
    ensures { IfOk result (λ due. IfSome due (IsDue max_inodes (stamps_of stamps.now) stamp.now)) }
{
    let sorted = by_point(alloc, stamps, &[])?;
    due_among(alloc, max_inodes, &sorted, stamp)
}
