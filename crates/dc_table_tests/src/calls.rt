//! Calls from the root.

ghost use Rattle.dc_ops.specs.Asked.{IsChange};

use dc_plain::{Call, Flags, Follow};

pub(crate) fn look(path: &[u8]) -> Call<'_> {
    Call::Look {
        base: 1,
        path,
        follow: Follow::Yes,
    }
}

pub(crate) fn mkdir(path: &[u8]) -> Call<'_>
    ensures { IsChange result }
{
    Call::Mkdir { base: 1, path }
}

pub(crate) fn create(path: &[u8]) -> Call<'_>
    ensures { IsChange result }
{
    Call::Create { base: 1, path }
}

pub(crate) fn unlink(path: &[u8]) -> Call<'_>
    ensures { IsChange result }
{
    Call::Unlink { base: 1, path }
}

pub(crate) fn rmdir(path: &[u8]) -> Call<'_>
    ensures { IsChange result }
{
    Call::Rmdir { base: 1, path }
}

pub(crate) fn rename<'a>(old: &'a [u8], new: &'a [u8]) -> Call<'a>
    ensures { IsChange result }
{
    Call::Rename {
        base: 1,
        old,
        new,
        flags: Flags::default(),
    }
}
