//! The changes that stand nearest to a line.

use crate::counts::is_done;
use dc_check::Stamp;
use dc_lang::{Command, Served};
use dc_names::NoMemory;
use std::alloc::Global;

/// How many changes below a line are shown. Above it one is.
const BELOW: usize = 2;

/// Whether this is a name of a path and no empty part, dot or dot-dot.
fn is_name(part: &[u8]) -> bool {
    !part.is_empty() && part != b".".as_slice() && part != b"..".as_slice()
}

/// Whether a path of a command has this name.
fn has_name(command: &Command, name: &[u8]) -> bool {
    for word in &command.words {
        for part in word.split(|byte| *byte == b'/') {
            if part == name {
                return true;
            }
        }
    }
    false
}

/// Whether two commands have a name in common.
fn share_name(one: &Command, other: &Command) -> bool {
    for word in &one.words {
        for part in word.split(|byte| *byte == b'/') {
            if is_name(part) && has_name(other, part) {
                return true;
            }
        }
    }
    false
}

/// Whether a change was made that has a name in common with a command.
fn is_kin(command: &Command, other: &Served, stamp: &Stamp) -> bool {
    is_done(&stamp.reply) && share_name(command, other.command)
}

/// The points and places of such changes, but for the one at this place.
fn kin_of(
    alloc: Global,
    served: &[Served],
    stamps: &[Stamp],
    place: usize,
    command: &Command,
) -> Result<Vec<(u64, usize)>, NoMemory> {
    let mut kin = Vec::new(alloc);
    for (at, (one, stamp)) in served.iter().zip(stamps).enumerate() {
        if at != place && is_kin(command, one, stamp) {
            kin.push((stamp.at, at))?;
        }
    }
    Ok(kin)
}

/// The places of the changes nearest to a point: the last two below it, and the first that isn't.
fn around(alloc: Global, kin: &[(u64, usize)], point: u64) -> Result<Vec<usize>, NoMemory> {
    let below = kin.iter().filter(|pair| pair.0 < point).count();
    let first = below.saturating_sub(BELOW);
    let many = below.saturating_sub(first).saturating_add(1);
    let near = kin.iter().skip(first).take(many);
    Ok(near.map(|pair| pair.1).collect(alloc)?)
}

/// The places of the changes nearest to a line: of the lines that say that a change was made and whose
/// paths have a name in common with its own, the last two below its point, and the first that isn't.
pub fn nearest(
    alloc: Global,
    served: &[Served],
    stamps: &[Stamp],
    place: usize,
) -> Result<Vec<usize>, NoMemory> {
    let (Some(one), Some(stamp)) = (served.get(place), stamps.get(place)) else {
        return Ok(Vec::new(alloc));
    };
    let mut kin = kin_of(alloc, served, stamps, place, one.command)?;
    kin.sort_by_key(|pair| pair.0)?;
    around(alloc, &kin, stamp.at)
}
