//! The stamps by their points.

ghost use Rattle.std.specs.Prelude.{◌≡◌, ◌↔◌, None, IfOk, slice_index};
ghost use Rattle.dc_check.specs.Stamps.{stamps_of};
ghost use Rattle.dc_check.specs.Judges.{AreByPoint, all_phased};
ghost use Rattle.dc_check.specs.Phases.{with_phases};
ghost use Rattle.dc_check.specs.Judging.{RisesByActor};

use crate::stamp::{Numbered, Stamp};
use dc_names::NoMemory;
use std::alloc::{AllocError, Global};
use std::collections::BTreeMap;

/// The first line whose point is below an earlier one of its session.
pub fn first_falling(alloc: Global, stamps: &[Stamp]) -> Result<Option<u64>, NoMemory>
    ensures { IfOk result (λ line. (line ≡ None) ↔ RisesByActor (stamps_of stamps.now)) }
{
    let mut latest: BTreeMap<u64, u64> = BTreeMap::new(alloc);
    for (i, stamp) in stamps.iter().enumerate() {
        let before = latest.get(&stamp.session).copied().unwrap_or(0);
        if stamp.at < before {
            return Ok(Some(i as u64 + 1));
        }
        latest.insert(stamp.session, stamp.at)?;
    }
    Ok(None)
}

/// The number at a place, 0 if there is none.
fn phase_at(phases: &[u64], i: usize) -> u64
    ensures { result ≡ slice_index phases.now i }
{
    match phases.get(i) {
        Some(phase) => *phase,
        None => 0,
    }
}

/// The stamps with their lines and their phases.
fn numbered<'a>(
    alloc: Global,
    stamps: &'a [Stamp],
    phases: &[u64],
) -> Result<Vec<Numbered<'a>>, AllocError>
    ensures { IfOk result (λ numbered.
        all_phased numbered.items ≡ with_phases phases.now (stamps_of stamps.now)) }
{
    let mut numbered = Vec::new(alloc);
    for (i, stamp) in stamps.iter().enumerate() {
        numbered.push(Numbered {
            line: i as u64 + 1,
            phase: phase_at(phases, i),
            stamp,
        })?;
    }
    Ok(numbered)
}

/// The stamps by their points, those of one point in the order of their lines.
pub fn by_point<'a>(
    alloc: Global,
    stamps: &'a [Stamp],
    phases: &[u64],
) -> Result<Vec<Numbered<'a>>, NoMemory>
    ensures { IfOk result (λ sorted.
        AreByPoint phases.now (stamps_of stamps.now) sorted.items) }
{
    let mut sorted = numbered(alloc, stamps, phases)?;
    sorted.sort_by_key(|numbered| numbered.stamp.at)?;
    Ok(sorted)
}

/// The line of the first stamp with a point above this one, if there is one.
pub fn first_above(stamps: &[Stamp], point: u64) -> u64 {
    match stamps.iter().position(|stamp| stamp.at > point) {
        Some(i) => i as u64 + 1,
        None => 0,
    }
}
