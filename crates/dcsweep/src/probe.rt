//! Allocations before and behind the call of a trial.

use crate::told::Told;
use std::alloc::{AllocError, Global};

/// What is tried.
#[derive(Clone, Copy)]
pub struct Plan<'a> {
    /// The trial.
    pub name: &'a str,
    /// How many allocations come first.
    pub pad: u64,
    /// How many are tried behind the call.
    pub most: u64,
    /// Whether they are tried in place of the call.
    pub setup: bool,
}

/// An allocation, which is given back.
fn allocate(alloc: Global) -> Result<(), AllocError> {
    let _taken = Vec::from_slice(alloc, &[0u8])?;
    Ok(())
}

/// Makes this many allocations.
pub fn pad(alloc: Global, many: u64) -> Result<(), AllocError> {
    for _ in 0..many {
        allocate(alloc)?;
    }
    Ok(())
}

impl Plan<'_> {
    /// Which of the allocations behind the call is refused, counted from 1.
    pub fn place(&self, alloc: Global) -> Option<u64> {
        for place in 0..self.most {
            if allocate(alloc).is_err() {
                return Some(place + 1);
            }
        }
        None
    }
}

/// What came of a call that answered, or didn't, when the refused allocation was this one behind it.
pub fn told(place: Option<u64>, answered: bool) -> Told {
    match (place, answered) {
        (None, true) => Told::Answered,
        (None, false) => Told::Refused,
        (Some(place), true) => Told::After(place),
        (Some(_), false) => Told::Wrong("memory was at hand"),
    }
}
