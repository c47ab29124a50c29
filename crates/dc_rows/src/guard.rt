//! The lock as a value that a pass has between two changes. `locking` has how it is got and given back.

ghost use Rattle.dc_table.specs.Holders.{pass_of};
ghost use Rattle.dc_table.specs.Passes.{known};
ghost use Rattle.dc_table.specs.Plays.{Home};

use dc_table::{Guarded, Holder};

/// The lock, held while all rows rest on the tree: each even row tells what the tree has under its key.
pub struct Guard<'t> {
    pub(crate) holder: Holder<'t>,
    pub(crate) guarded: Box<Guarded>,
    ghost rests: { Home (known (pass_of holder)) guarded.value },
}
