//! Pages of the entries of a directory.

ghost use Rattle.std.specs.Prelude.{◌≡◌, IfOk, OnErr};
ghost use Rattle.dc_ops.specs.Pages.{page_by, IsFound};
ghost use Rattle.dc_plain.specs.Requests.{answer_of};
ghost use Rattle.dc_store.specs.Pages.{name_shown, page_told};

use dc_names::{Name, NoMemory};
use dc_plain::Reply;
use dc_store::{Entry, SlabStore};
use std::alloc::Global;

/// The entries of the directory that a look-up found: those behind a name, or all, at most this many, in the
/// order of the bytes of their names. None if the look-up was refused. `NoMemory` if memory for them was
/// refused: never in the place of a refusal.
pub fn page(
    alloc: Global,
    store: &SlabStore,
    found: &Reply,
    after: Option<Name<'_>>,
    most: usize,
) -> Result<Vec<Entry>, NoMemory>
    ensures ok { IfOk result (λ page. page_told page
        ≡ page_by store.now (name_shown after.entry) most (answer_of found.now)) }
    ensures err { OnErr result (IsFound (answer_of found.now)) }
{
    match found {
        Reply::Found(number, _) => store.page(alloc, *number, after, most),
        Reply::Done(_)
        | Reply::Unit
        | Reply::Text(_)
        | Reply::Names(_)
        | Reply::Stat(..)
        | Reply::Refused(_) => Ok(Vec::new(alloc)),
    }
}
