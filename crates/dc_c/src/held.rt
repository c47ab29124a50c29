//! What a handle owns, behind one pointer.

ghost use Rattle.std.specs.Prelude.{◌≡◌, List, [], ◌∷◌, MatchOption};
ghost use Rattle.dc_c.specs.Owned.{held_owns, holds_coded};
ghost use Rattle.dc_hold.specs.declared.hold.Hold.{Hold};

use crate::parts::Parts;
use dc_hold::Hold;
use std::alloc::Global;
use std::marker::Model;
use std::ptr;

/// A hold in a box, or none: then the pointer is null.
#[repr(C)]
#[derive(Drop)]
pub struct Held {
    at: *mut u8,
    alloc: Global,
    ghost holds: { List Hold } by { holds_coded },
}

impl Model for Held {
    ghost also_owns = { λ h. held_owns h.alloc h.at h.holds };
}

impl Held {
    /// No hold.
    pub(crate) fn blank(alloc: Global) -> Held
        ensures { result.holds ≡ [] }
    {
        Held {
            at: ptr::null_mut(),
            alloc,
        }
    }

    /// The hold of these parts.
    pub(crate) fn of_parts(parts: Parts<Hold, Global>) -> Held
        ensures { result.holds ≡ parts.value ∷ [] }
    {
        let Parts { at, alloc } = parts;
        Held {
            at: at as *mut u8,
            alloc,
        }
    }

    /// The parts of its hold, if it has one.
    pub(crate) fn into_parts(self) -> Option<Parts<Hold, Global>>
        ensures { MatchOption result (self.holds ≡ []) (λ parts. self.holds ≡ parts.value ∷ []) }
    {
        let Held { at, alloc } = self;
        if at.is_null() {
            return None;
        }
        Some(Parts {
            at: at as *mut Hold,
            alloc,
        })
    }
}
