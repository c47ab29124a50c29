//! Which paths are looked up, and in which order.

use crate::drawing::ABSENT;
use crate::tree::extended;
use crate::work::{Shape, Work};
use dc_cache::PathText;
use rand_pcg::Pcg32;
use rand_pcg::rand_core::Rng;
use std::alloc::{AllocError, Global};

/// The fewest look-ups before a thread begins anew.
const LEAST_ORDER: usize = 16_384;

/// Some paths in a random order, four times as many or more, so that nearly each comes.
fn shuffled<'a>(alloc: Global, paths: &[PathText<'a>]) -> Result<Vec<PathText<'a>>, AllocError> {
    let mut order = Vec::new(alloc);
    let mut rng = Pcg32::new(1, 54);
    for _ in 0..LEAST_ORDER.max(paths.len().saturating_mul(4)) {
        let at = (rng.next_u32() as usize)
            .checked_rem(paths.len())
            .unwrap_or(0);
        if let Some(path) = paths.get(at) {
            order.push(*path)?;
        }
    }
    Ok(order)
}

/// The paths in the order in which they are looked up: names that are to miss come in turns, so that
/// each is gone before it comes again.
pub fn ordered<'a>(
    alloc: Global,
    work: Work,
    paths: &[PathText<'a>],
) -> Result<Vec<PathText<'a>>, AllocError> {
    match work {
        Work::Miss => Ok(Vec::from_slice(alloc, paths)?),
        _ => shuffled(alloc, paths),
    }
}

/// How many names that miss there are to each file: four times as many as there are rows in all.
fn missing_to_a_file(shape: Shape, files: usize) -> u64 {
    let names = shape.buckets.saturating_mul(16);
    let each = names.checked_div(files as u64).unwrap_or(0);
    each.saturating_add(1)
}

/// The texts that are looked up: those of the files, or of absent names beside them.
pub fn texts_of(alloc: Global, shape: Shape, files: &[&[u8]]) -> Result<Vec<Vec<u8>>, AllocError> {
    match shape.work {
        Work::Absent => extended(alloc, files, ABSENT, 1),
        Work::Miss => extended(alloc, files, ABSENT, missing_to_a_file(shape, files.len())),
        _ => extended(alloc, files, "", 1),
    }
}
