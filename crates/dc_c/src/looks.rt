//! Look-ups and reads.

ghost use Rattle.std.specs.Prelude.{◌≡◌, length, MatchOption};
ghost use Rattle.dc_cache.specs.Calls.{look, stat, readlink, list};
ghost use Rattle.dc_c.specs.Answering.{Refuses, Shows};
ghost use Rattle.dc_c.specs.Shapes.{Lists, Looks, LooksFast, ReadsFast, ReadsText, Resolves};
ghost use Rattle.dc_hold.specs.Allowed.{bytes_told};
ghost use Rattle.dc_hold.specs.Buffers.{list_over, read_over};
ghost use Rattle.dc_hold.specs.Numbers.{follow_by};
ghost use Rattle.dc_hold.specs.declared.status.Status.TheVariants.{BadArgument};
ghost use Rattle.dc_hold.specs.declared.told.Found.{Found};

use crate::handle::Handle;
use dc_cache::{NoMemory, Reply, Stamped};
use dc_hold::{
    Found, Status, Told, follow_of, put_names, put_text, told_fast, told_link, told_read,
    told_tried,
};
use std::alloc::Global;

/// Writes what was found, and answers how the call ended.
pub(crate) fn tell(found: &mut Found, told: Told) -> i32
    ensures { Shows told result found.new }
{
    *found = told.found;
    told.status.number()
}

/// Writes the first bytes of a link's text, if one was read.
fn write_text(buffer: &mut [u8], tried: &Option<Result<Stamped, NoMemory>>)
    ensures { buffer.new ≡ read_over buffer.old tried.now }
{
    if let Some(Ok(stamped)) = tried {
        if let Reply::Text(text) = &stamped.reply {
            put_text(buffer, text.as_slice());
        }
    }
}

/// Writes the names that were read, if they were, and answers how many bytes they take.
fn write_names(buffer: &mut [u8], tried: &Option<Result<Stamped, NoMemory>>) -> u64
    ensures same { length buffer.new ≡ length buffer.old }
    ensures written { buffer.new ≡ list_over buffer.old tried.now }
    ensures all { result ≡ bytes_told tried.now }
{
    if let Some(Ok(stamped)) = tried {
        if let Reply::Names(names) = &stamped.reply {
            return put_names(buffer, names.as_slice());
        }
    }
    0
}

/// Where a path leads, by the rows alone.
#[unsafe(no_mangle)]
pub extern "C" fn gb_look_fast(
    pass: &mut Handle,
    base: u64,
    path: &[u8],
    follow: u32,
    found: &mut Found,
) -> i32
    ensures looks { MatchOption (follow_by follow)
        (Refuses Found BadArgument pass.old pass.new result found.old found.new)
        (λ how. LooksFast base path.now how pass.old pass.new result found.old found.new) }
{
    let Some(follow) = follow_of(follow) else {
        return Status::BadArgument.number();
    };
    let Some(mut hold) = pass.take() else {
        return Status::BadPass.number();
    };
    let fast = hold.look_fast(base, path, follow);
    pass.put(hold);
    tell(found, told_fast(&fast))
}

/// Where a path leads, by the rows, and if they don't answer by the tree, whose answers fill rows.
#[unsafe(no_mangle)]
pub extern "C" fn gb_try_resolve(
    alloc: Global,
    pass: &mut Handle,
    base: u64,
    path: &[u8],
    follow: u32,
    found: &mut Found,
) -> i32
    ensures looks { MatchOption (follow_by follow)
        (Refuses Found BadArgument pass.old pass.new result found.old found.new)
        (λ how. Resolves (look base path.now how) pass.old pass.new result found.old found.new) }
{
    let Some(follow) = follow_of(follow) else {
        return Status::BadArgument.number();
    };
    let Some(mut hold) = pass.take() else {
        return Status::BadPass.number();
    };
    let tried = hold.try_resolve(alloc, base, path, follow);
    pass.put(hold);
    tell(found, told_tried(&tried))
}

/// Where a path leads, by the tree, whose answers fill rows.
#[unsafe(no_mangle)]
pub extern "C" fn gb_try_look(
    alloc: Global,
    pass: &mut Handle,
    base: u64,
    path: &[u8],
    follow: u32,
    found: &mut Found,
) -> i32
    ensures looks { MatchOption (follow_by follow)
        (Refuses Found BadArgument pass.old pass.new result found.old found.new)
        (λ how. Looks (look base path.now how) pass.old pass.new result found.old found.new) }
{
    let Some(follow) = follow_of(follow) else {
        return Status::BadArgument.number();
    };
    let Some(mut hold) = pass.take() else {
        return Status::BadPass.number();
    };
    let tried = hold.try_look(alloc, base, path, follow);
    pass.put(hold);
    tell(found, told_tried(&tried))
}

/// Where a path leads, and how many names or entries that inode has.
#[unsafe(no_mangle)]
pub extern "C" fn gb_try_stat(pass: &mut Handle, base: u64, path: &[u8], found: &mut Found) -> i32
    ensures counts { Looks (stat base path.now) pass.old pass.new result found.old found.new }
{
    let Some(mut hold) = pass.take() else {
        return Status::BadPass.number();
    };
    let tried = hold.try_stat(base, path);
    pass.put(hold);
    tell(found, told_tried(&tried))
}

/// What the rows alone tell of a readlink.
#[unsafe(no_mangle)]
pub extern "C" fn gb_readlink_fast(
    pass: &mut Handle,
    base: u64,
    path: &[u8],
    found: &mut Found,
) -> i32
    ensures reads { ReadsFast base path.now pass.old pass.new result found.old found.new }
{
    let Some(mut hold) = pass.take() else {
        return Status::BadPass.number();
    };
    let fast = hold.readlink_fast(base, path);
    pass.put(hold);
    tell(found, told_link(&fast))
}

/// The text of a symbolic link, of which as many bytes are written as there is room for.
#[unsafe(no_mangle)]
pub extern "C" fn gb_try_readlink(
    alloc: Global,
    pass: &mut Handle,
    base: u64,
    path: &[u8],
    text: &mut [u8],
    found: &mut Found,
) -> i32
    ensures reads { ReadsText (readlink base path.now) pass.old pass.new result
        (found.old, text.old) (found.new, text.new) }
{
    let Some(mut hold) = pass.take() else {
        return Status::BadPass.number();
    };
    let tried = hold.try_readlink(alloc, base, path);
    pass.put(hold);
    write_text(text, &tried);
    tell(found, told_read(&tried))
}

/// The names in a directory, each with a zero byte behind it, as far as whole names fit.
#[unsafe(no_mangle)]
pub extern "C" fn gb_try_list(
    alloc: Global,
    pass: &mut Handle,
    base: u64,
    path: &[u8],
    names: &mut [u8],
    found: &mut Found,
) -> i32
    ensures lists { Lists (list base path.now) pass.old pass.new result
        (found.old, names.old) (found.new, names.new) }
{
    let Some(mut hold) = pass.take() else {
        return Status::BadPass.number();
    };
    let tried = hold.try_list(alloc, base, path);
    pass.put(hold);
    let mut told = told_read(&tried);
    told.found.count = write_names(names, &tried);
    tell(found, told)
}
