//! What a program in C asks by a number.

ghost use Rattle.std.specs.Prelude.{◌≡◌};
ghost use Rattle.dc_hold.specs.Numbers.{flags_by, follow_by};

use dc_cache::{Flags, Follow};

/// How a last link is followed: by 0 it is, by 1 it is kept, by 2 it is followed to a directory. `None` of
/// any other number.
#[must_use]
pub fn follow_of(number: u32) -> Option<Follow>
    ensures { result ≡ follow_by number }
{
    match number {
        0 => Some(Follow::Yes),
        1 => Some(Follow::No),
        2 => Some(Follow::Dir),
        _ => None,
    }
}

/// How a rename may go: 1 is for a name that has to be free, 2 for an exchange, 3 for both, which a tree
/// refuses, and 0 for neither. `None` of any other number.
#[must_use]
pub fn flags_of(number: u32) -> Option<Flags>
    ensures { result ≡ flags_by number }
{
    match number {
        0 => Some(flags(false, false)),
        1 => Some(flags(true, false)),
        2 => Some(flags(false, true)),
        3 => Some(flags(true, true)),
        _ => None,
    }
}

fn flags(no_replace: bool, exchange: bool) -> Flags
    ensures { result ≡ record { no_replace = no_replace; exchange = exchange } }
{
    Flags {
        no_replace,
        exchange,
    }
}
