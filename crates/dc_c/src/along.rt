//! Look-ups that tell their trails.

ghost use Rattle.std.specs.Prelude.{MatchOption};
ghost use Rattle.dc_c.specs.Answering.{Refuses};
ghost use Rattle.dc_c.specs.Trails.{FindsAlong, LooksAlong, Trailed};
ghost use Rattle.dc_hold.specs.Numbers.{follow_by};
ghost use Rattle.dc_hold.specs.declared.status.Status.TheVariants.{BadArgument};

use crate::handle::Handle;
use crate::looks::tell;
use dc_hold::{Found, Status, follow_of, told_along, told_fast_along};
use std::alloc::Global;

/// Where a path leads, by the rows alone, and each directory in which it asks.
#[unsafe(no_mangle)]
pub extern "C" fn gb_look_fast_along(
    pass: &mut Handle,
    base: u64,
    path: &[u8],
    follow: u32,
    trail: &mut [u64],
    found: &mut Found,
) -> i32
    ensures looks { MatchOption (follow_by follow)
        (Refuses Trailed BadArgument pass.old pass.new result
        (found.old, trail.old) (found.new, trail.new))
        (λ how. FindsAlong base path.now how pass.old pass.new result
        (found.old, trail.old) (found.new, trail.new)) }
{
    let Some(follow) = follow_of(follow) else {
        return Status::BadArgument.number();
    };
    let Some(mut hold) = pass.take() else {
        return Status::BadPass.number();
    };
    let fast = hold.look_fast_along(base, path, follow, trail);
    pass.put(hold);
    tell(found, told_fast_along(&fast))
}

/// Where a path leads, by the rows, and if they don't answer by the tree, whose answers fill rows; and each
/// directory in which it asks.
#[unsafe(no_mangle)]
pub extern "C" fn gb_try_look_along(
    alloc: Global,
    pass: &mut Handle,
    base: u64,
    path: &[u8],
    follow: u32,
    trail: &mut [u64],
    found: &mut Found,
) -> i32
    ensures looks { MatchOption (follow_by follow)
        (Refuses Trailed BadArgument pass.old pass.new result
        (found.old, trail.old) (found.new, trail.new))
        (λ how. LooksAlong base path.now how pass.old pass.new result
        (found.old, trail.old) (found.new, trail.new)) }
{
    let Some(follow) = follow_of(follow) else {
        return Status::BadArgument.number();
    };
    let Some(mut hold) = pass.take() else {
        return Status::BadPass.number();
    };
    let tried = hold.try_look_along(alloc, base, path, follow, trail);
    pass.put(hold);
    tell(found, told_along(&tried))
}
