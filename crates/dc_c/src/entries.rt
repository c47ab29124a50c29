//! The entries of a directory, in pages.

ghost use Rattle.std.specs.Prelude.{◌≡◌, length, MatchOption};
ghost use Rattle.dc_c.specs.Answering.{Refuses};
ghost use Rattle.dc_c.specs.Pages.{Filled, Pages};
ghost use Rattle.dc_hold.specs.Pages.{page_asked};
ghost use Rattle.dc_hold.specs.declared.status.Status.TheVariants.{BadArgument};

use crate::handle::Handle;
use crate::looks::tell;
use dc_hold::{DirEntry, Found, Status, asked_page, told_page};
use std::alloc::Global;

/// Entries of a directory behind a name, or all, as many as there is room for.
#[unsafe(no_mangle)]
pub extern "C" fn gb_try_entries(
    alloc: Global,
    pass: &mut Handle,
    base: u64,
    path: &[u8],
    after: &[u8],
    entries: &mut [DirEntry],
    found: &mut Found,
) -> i32
    ensures pages { MatchOption (page_asked base path.now after.now (length entries.old))
        (Refuses Filled BadArgument pass.old pass.new result
        (found.old, entries.old) (found.new, entries.new))
        (λ asked. Pages asked pass.old pass.new result
        (found.old, entries.old) (found.new, entries.new)) }
{
    let Some(asked) = asked_page(base, path, after, entries.len()) else {
        return Status::BadArgument.number();
    };
    let Some(mut hold) = pass.take() else {
        return Status::BadPass.number();
    };
    let tried = hold.try_entries(alloc, asked);
    pass.put(hold);
    tell(found, told_page(entries, &tried))
}
