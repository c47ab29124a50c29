//! The question of a look-up as one value, which every walk is handed.

use dc_names::PathText;
use dc_plain::{Call, Follow};

/// What a look-up asks: where a path leads from a starting directory, the number of an inode, and
/// whether it follows a link that the path ends in.
#[derive(Clone, Copy)]
pub struct Look<'a> {
    pub base: u64,
    pub path: PathText<'a>,
    pub follow: Follow,
}

impl<'a> Look<'a> {
    ghost use Rattle.std.specs.Prelude.{◌≡◌};
    ghost use Rattle.dc_plain.specs.Requests.{request_of};
    ghost use Rattle.dc_walk.specs.Looks.{look_shown};

    /// The call that asks it.
    #[inline(always)]
    pub fn call(self) -> Call<'a>
        ensures { request_of result ≡ look_shown self.entry }
    {
        Call::Look {
            base: self.base,
            path: self.path.bytes(),
            follow: self.follow,
        }
    }
}
