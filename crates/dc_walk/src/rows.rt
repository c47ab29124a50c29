//! The state of a walk over rows, and what it gives up with.

ghost use Rattle.std.specs.Prelude.{◌<◌, Some, length};
ghost use Rattle.dc_row.specs.Spelling.{SpellsText, TellsTarget, TellsText};
ghost use Rattle.dc_walk.specs.Rooms.{used_at};

use crate::filter::KeyFilter;
use crate::link::LinkText;
use crate::look::Look;
use crate::used::Room;
use crate::why::Why;
use dc_names::Kind;
use dc_table::{Pass, Reader};

/// A walk over rows: its question, the rows that it used, whether a step was made, how many rows were
/// noted, and which keys the used rows may tell of. Once `slow`, it reads each row whole. If it is `brief`,
/// it needn't say why it gives up, and reads no row for that.
#[derive(Drop)]
pub(crate) struct Rows<'a> {
    pub reader: Reader<'a>,
    pub pass: &'a mut Pass,
    pub used: &'a mut Room,
    pub look: Look<'a>,
    pub begun: bool,
    pub made: u64,
    pub filter: KeyFilter,
    pub slow: bool,
    pub brief: bool,
}

/// Why a walk over rows gives up. `spare` is the row that was had for its last question, if that row
/// doesn't tell of the key: the walk doesn't use it, and it may be pinned.
#[derive(Clone, Copy)]
pub(crate) struct Stop {
    pub why: Why,
    pub spare: Option<u64>,
}

impl Rows<'_> {
    /// Where the used row at a place says that its entry leads.
    #[inline(always)]
    pub(crate) fn target_at(&self, at: usize) -> Option<(u64, Kind)>
        requires used { at < length self.now.used.now.items }
        ensures { TellsTarget (used_at self.now.used.now.items at).words result }
    {
        self.used.target_at(at)
    }

    /// The text of a link that the used row at a place has.
    #[inline(always)]
    pub(crate) fn text_at(&self, at: usize) -> LinkText
        requires used { at < length self.now.used.now.items }
        requires spelled { SpellsText (used_at self.now.used.now.items at).words }
        ensures { TellsText (used_at self.now.used.now.items at).words (Some result.text) }
    {
        self.used.text_at(at)
    }
}
