//! What the rows say, against the tree now.

ghost use Rattle.std.specs.Prelude.{◌≡◌, ◌↔◌, ◌<◌, None, Some, option_map, IsTrue, IfOk};
ghost use Rattle.dc_core.specs.Lives.{Lives};
ghost use Rattle.dc_core.specs.Refusals.{FirstRow, IsOdd, IsTouched, IsTrueRow};
ghost use Rattle.dc_core.specs.Shown.{state_of};
ghost use Rattle.dc_events.specs.Rows.{row_words};
ghost use Rattle.dc_plain.specs.Requests.{request_of};
ghost use Rattle.dc_row.specs.Rows.{row_shown};
ghost use Rattle.dc_row.specs.Spelling.{Spells};

use crate::facts::fact_of;
use crate::state::State;
use dc_names::NoMemory;
use dc_plain::Call;
use dc_row::{Row, decode};
use std::alloc::Global;

impl State {
    /// Whether the words of a row spell one whose fact, if any, is true in the tree.
    pub fn is_true(&self, row: u64) -> bool
        requires lives { Lives (state_of self.now) }
        requires room { row < self.now.rows }
        ensures { IsTrue result ↔ IsTrueRow (state_of self.now) row }
    {
        match decode(self.row(row)) {
            Some(told) => match fact_of(&told) {
                Some(fact) => self.tree.holds(&fact),
                None => true,
            },
            None => false,
        }
    }

    /// Whether the words of a row spell an empty one.
    pub fn is_empty(&self, row: u64) -> bool
        requires lives { Lives (state_of self.now) }
        requires room { row < self.now.rows }
        ensures { IsTrue result ↔ Spells (row_words self.now.words.items row) None }
    {
        is_blank(&decode(self.row(row)))
    }

    /// Whether an even row spells a fact whose key a call touches.
    fn is_touched(&self, alloc: Global, call: &Call, row: u64) -> Result<bool, NoMemory>
        requires lives { Lives (state_of self.now) }
        requires room { row < self.now.rows }
        ensures { IfOk result (λ touched. IsTrue touched
            ↔ IsTouched (state_of self.now) (request_of call.now) row) }
    {
        if self.count(row) % 2 == 1 {
            return Ok(false);
        }
        let Some(told) = decode(self.row(row)) else {
            return Ok(false);
        };
        match fact_of(&told) {
            Some(fact) => self.tree.touches(alloc, call, &fact),
            None => Ok(false),
        }
    }

    /// The first row that is odd.
    pub fn first_odd(&self) -> Option<u64>
        requires { Lives (state_of self.now) }
        ensures { FirstRow self.now.rows (IsOdd (state_of self.now)) result }
    {
        for row in 0..self.rows {
            if self.count(row) % 2 == 1 {
                return Some(row);
            }
        }
        None
    }

    /// The first even row with a key that a call touches.
    pub fn first_touched(&self, alloc: Global, call: &Call) -> Result<Option<u64>, NoMemory>
        requires { Lives (state_of self.now) }
        ensures { IfOk result
            (FirstRow self.now.rows (IsTouched (state_of self.now) (request_of call.now))) }
    {
        for row in 0..self.rows {
            if self.is_touched(alloc, call, row)? {
                return Ok(Some(row));
            }
        }
        Ok(None)
    }
}

/// Whether an empty row was decoded.
fn is_blank(told: &Option<Row>) -> bool
    ensures { IsTrue result ↔ option_map row_shown told.now ≡ Some None }
{
    match told {
        Some(Row::Empty) => true,
        Some(Row::Entry(..) | Row::Link(..)) | None => false,
    }
}
