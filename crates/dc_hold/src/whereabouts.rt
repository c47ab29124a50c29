//! Where a directory is, in numbers and bytes for a program in C.

ghost use Rattle.std.specs.Prelude.{◌≡◌, ◌<◌, IfOk, IfSome};
ghost use Rattle.dc_hold.specs.Whereabouts.{path_over, tells_where};
ghost use Rattle.dc_names.specs.declared.limits.TheConstants.{PATH_MAX};

use crate::status::Status;
use crate::told::{Told, busy, inode, kind_number};
use dc_cache::{Kind, Whereabouts};
use dc_names::PATH_MAX;

/// What a try to tell where a directory is says.
#[must_use]
pub fn told_where(number: u64, tried: Option<Whereabouts>) -> Told
    ensures { result ≡ tells_where number tried }
{
    let Some(told) = tried else {
        return busy();
    };
    match told.start {
        Ok(start) => {
            let count = PATH_MAX.saturating_sub(start) as u64;
            inode(number, kind_number(Kind::Dir), count, told.at)
        }
        Err(refusal) => {
            let mut refused = inode(0, 0, 0, told.at);
            refused.status = Status::Refused(refusal.number());
            refused
        }
    }
}

/// Moves a path from the end of its buffer to the front, if one was told.
pub fn put_path(buffer: &mut [u8; PATH_MAX], tried: Option<Whereabouts>)
    requires { IfSome tried (λ told. IfOk told.start (λ start. start < PATH_MAX)) }
    ensures { buffer.new ≡ path_over buffer.old tried }
{
    if let Some(told) = tried
        && let Ok(start) = told.start
    {
        buffer.rotate_left(start);
    }
}
