//! Where a directory is.

ghost use Rattle.std.specs.Prelude.{◌<◌, ◌≤◌, length};
ghost use Rattle.dc_names.specs.declared.limits.TheConstants.{PATH_MAX};
ghost use Rattle.dc_c.specs.Whereabouts.{RefusesRoom, TellsWhere};

use crate::handle::Handle;
use crate::looks::tell;
use dc_cache::PATH_MAX;
use dc_hold::{Found, Status, put_path, told_where};

/// Where the directory of a number is. Its path is written into the first bytes of a buffer.
#[unsafe(no_mangle)]
pub extern "C" fn gb_try_path_of(
    pass: &mut Handle,
    number: u64,
    path: &mut [u8],
    found: &mut Found,
) -> i32
    ensures refuses { length path.old < PATH_MAX →
        RefusesRoom pass.old pass.new result (found.old, path.old) (found.new, path.new) }
    ensures tells { PATH_MAX ≤ length path.old →
        TellsWhere number pass.old pass.new result (found.old, path.old) (found.new, path.new) }
{
    let Some(buffer) = path.first_chunk_mut::<PATH_MAX>() else {
        return Status::BadArgument.number();
    };
    let Some(mut hold) = pass.take() else {
        return Status::BadPass.number();
    };
    let tried = hold.try_path_of(number, buffer);
    pass.put(hold);
    put_path(buffer, tried);
    tell(found, told_where(number, tried))
}
