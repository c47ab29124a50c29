//! The handle that a program in C keeps of its pass.

ghost use Rattle.std.specs.Prelude.{◌≡◌, [], ◌∷◌, IsFalse, IsTrue, MatchOption};
ghost use Rattle.dc_c.specs.Holding.{IsOpen};

use crate::held::Held;
use crate::parts::Parts;
use dc_hold::Hold;
use std::alloc::Global;
use std::mem;

/// One pointer for C, null while the handle is blank. Only the calls of this library read what it points
/// to: each takes the hold out and puts it back, so that a handle is blank while a call has its hold.
#[repr(C)]
#[derive(Drop)]
pub struct Handle {
    held: Held,
    // What a blank handle is made of takes no bytes: so a call that blanks one needs no allocator.
    alloc: Global,
}

impl Handle {
    /// Takes the hold out of it, which leaves it blank. `None` if it was blank, as it is too while another
    /// call has its hold.
    pub(crate) fn take(&mut self) -> Option<Box<Hold, Global>>
        ensures blank { self.new.held.holds ≡ [] }
        ensures taken { MatchOption result (self.old.held.holds ≡ [])
            (λ hold. self.old.held.holds ≡ hold.value ∷ []) }
    {
        let blank = Held::blank(self.alloc);
        match mem::replace(&mut self.held, blank).into_parts() {
            Some(parts) => Some(parts.into_box()),
            None => None,
        }
    }

    /// Puts a hold into it, which must be blank.
    pub(crate) fn put(&mut self, hold: Box<Hold, Global>)
        requires { self.old.held.holds ≡ [] }
        ensures { self.new.held.holds ≡ hold.value ∷ [] }
    {
        self.held = Held::of_parts(Parts::of(hold));
    }

    /// Whether it has a hold.
    pub(crate) fn is_open(&mut self) -> bool
        ensures same { self.new.held.holds ≡ self.old.held.holds }
        ensures blank { IsFalse result → self.new.held.holds ≡ [] }
        ensures held { IsTrue result → IsOpen self.old.held.holds }
    {
        match self.take() {
            Some(hold) => {
                self.put(hold);
                true
            }
            None => false,
        }
    }
}
