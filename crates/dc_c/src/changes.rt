//! Changes.

ghost use Rattle.std.specs.Prelude.{◌≡◌, MatchOption, option_map, option_and_then};
ghost use Rattle.dc_cache.specs.Calls.{request_of, mkdir, create, symlink, link, unlink, rmdir, rename};
ghost use Rattle.dc_cache.specs.Passes.{IsChange};
ghost use Rattle.dc_c.specs.Answering.{Refuses};
ghost use Rattle.dc_c.specs.Shapes.{Makes, Takes, Written};
ghost use Rattle.dc_hold.specs.Numbers.{flags_by};
ghost use Rattle.dc_hold.specs.declared.status.Status.TheVariants.{BadArgument};

use crate::handle::Handle;
use crate::looks::tell;
use dc_cache::{Call, ChangeFault, Stamped};
use dc_hold::{Found, Gone, Status, flags_of, told_change, told_gone};
use std::alloc::Global;

/// What a change that had the lock came to.
type Made = Result<Stamped, ChangeFault>;

/// Makes a change.
fn change(alloc: Global, pass: &mut Handle, call: &Call<'_>, found: &mut Found) -> i32
    requires { IsChange call.now }
    ensures { Makes (request_of call.now) pass.old pass.new result found.old found.new }
{
    let Some(mut hold) = pass.take() else {
        return Status::BadPass.number();
    };
    let tried = hold.try_change(alloc, call);
    pass.put(hold);
    tell(found, told_change(&tried))
}

/// What a change came to, and what it took away.
fn parted(tried: Option<(Made, Option<dc_cache::Gone>)>) -> (Option<Made>, Option<dc_cache::Gone>)
    ensures made { result.0 ≡ option_map (λ taken. taken.0) tried }
    ensures gone { result.1 ≡ option_and_then (λ taken. taken.1) tried }
{
    match tried {
        Some((made, gone)) => (Some(made), gone),
        None => (None, None),
    }
}

/// Makes a change that may take a name away, and tells what that name led to.
fn take(
    alloc: Global,
    pass: &mut Handle,
    call: &Call<'_>,
    found: &mut Found,
    gone: &mut Gone,
) -> i32
    requires { IsChange call.now }
    ensures { Takes (request_of call.now) pass.old pass.new result
        (found.old, gone.old) (found.new, gone.new) }
{
    let Some(mut hold) = pass.take() else {
        return Status::BadPass.number();
    };
    let tried = hold.try_change_telling(alloc, call);
    pass.put(hold);
    let (made, went) = parted(tried);
    *gone = told_gone(went);
    tell(found, told_change(&made))
}

/// Makes a directory.
#[unsafe(no_mangle)]
pub extern "C" fn gb_try_mkdir(
    alloc: Global,
    pass: &mut Handle,
    base: u64,
    path: &[u8],
    found: &mut Found,
) -> i32
    ensures makes { Makes (mkdir base path.now) pass.old pass.new result found.old found.new }
{
    change(alloc, pass, &Call::Mkdir { base, path }, found)
}

/// Makes a file.
#[unsafe(no_mangle)]
pub extern "C" fn gb_try_create(
    alloc: Global,
    pass: &mut Handle,
    base: u64,
    path: &[u8],
    found: &mut Found,
) -> i32
    ensures makes { Makes (create base path.now) pass.old pass.new result found.old found.new }
{
    change(alloc, pass, &Call::Create { base, path }, found)
}

/// Makes a symbolic link with a text.
#[unsafe(no_mangle)]
pub extern "C" fn gb_try_symlink(
    alloc: Global,
    pass: &mut Handle,
    base: u64,
    text: &[u8],
    path: &[u8],
    found: &mut Found,
) -> i32
    ensures makes { Makes (symlink base text.now path.now) pass.old pass.new result found.old found.new }
{
    change(alloc, pass, &Call::Symlink { base, text, path }, found)
}

/// Gives what the first path names the second one as a further name.
#[unsafe(no_mangle)]
pub extern "C" fn gb_try_link(
    alloc: Global,
    pass: &mut Handle,
    base: u64,
    old: &[u8],
    new: &[u8],
    found: &mut Found,
) -> i32
    ensures makes { Makes (link base old.now new.now) pass.old pass.new result found.old found.new }
{
    change(alloc, pass, &Call::Link { base, old, new }, found)
}

/// Takes a name of a file or a link away.
#[unsafe(no_mangle)]
pub extern "C" fn gb_try_unlink(
    alloc: Global,
    pass: &mut Handle,
    base: u64,
    path: &[u8],
    found: &mut Found,
    gone: &mut Gone,
) -> i32
    ensures takes { Takes (unlink base path.now) pass.old pass.new result
        (found.old, gone.old) (found.new, gone.new) }
{
    take(alloc, pass, &Call::Unlink { base, path }, found, gone)
}

/// Takes an empty directory away.
#[unsafe(no_mangle)]
pub extern "C" fn gb_try_rmdir(
    alloc: Global,
    pass: &mut Handle,
    base: u64,
    path: &[u8],
    found: &mut Found,
    gone: &mut Gone,
) -> i32
    ensures takes { Takes (rmdir base path.now) pass.old pass.new result
        (found.old, gone.old) (found.new, gone.new) }
{
    take(alloc, pass, &Call::Rmdir { base, path }, found, gone)
}

/// Gives what the first path names the second name in its place, or as the flags say.
#[unsafe(no_mangle)]
pub extern "C" fn gb_try_rename(
    alloc: Global,
    pass: &mut Handle,
    base: u64,
    old: &[u8],
    new: &[u8],
    flags: u32,
    found: &mut Found,
    gone: &mut Gone,
) -> i32
    ensures takes { MatchOption (flags_by flags)
        (Refuses Written BadArgument pass.old pass.new result (found.old, gone.old) (found.new, gone.new))
        (λ how. Takes (rename base old.now new.now how) pass.old pass.new result
        (found.old, gone.old) (found.new, gone.new)) }
{
    let Some(flags) = flags_of(flags) else {
        return Status::BadArgument.number();
    };
    let call = Call::Rename {
        base,
        old,
        new,
        flags,
    };
    take(alloc, pass, &call, found, gone)
}
