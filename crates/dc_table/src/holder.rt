//! The pass that has the lock, and the table for walks without it.

ghost use Rattle.dc_table.specs.Passes.{Fits, IsHolder};

use crate::shared::Shared;
use crate::table::Pass;

/// The pass that has the lock. It is made by `lock` and `try_lock` alone, beside what the lock guards, and
/// ended by `give` and `answer`, which take that back.
pub struct Holder<'t> {
    pub(crate) shared: &'t Shared,
    pub(crate) pass: &'t mut Pass,
    ghost fits: { Fits shared.now pass.now },
    ghost has_lock: { IsHolder pass.now },
}

/// The table for walks without the lock. It has the steps of a walk alone: a reader and a pass
/// don't get the lock.
#[derive(Clone, Copy)]
pub struct Reader<'t> {
    pub(crate) shared: &'t Shared,
}
