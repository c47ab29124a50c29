//! A row that is noted and read whole, by the steps of a walk.

ghost use Rattle.std.specs.Prelude.{◌≡◌, ◌<◌, length, IfOk};
ghost use Rattle.dc_events.specs.Effects.{begins};
ghost use Rattle.dc_plain.specs.Requests.{request_of};
ghost use Rattle.dc_names.specs.declared.limits.TheConstants.{ROW_WORDS};
ghost use Rattle.dc_table.specs.Holders.{table_of};
ghost use Rattle.dc_table.specs.Passes.{view, share, Fits, IsIdle, StaysOut};
ghost use Rattle.dc_walk.specs.Probes.{IsEarly, seen_whole};

use dc_plain::Call;
use dc_row::ROW_WORDS;
use dc_table::{Pass, Reader};

/// The words of a row, its count first.
pub(crate) type Words = [u64; ROW_WORDS];

/// Notes a row and reads it whole. `first` begins the walk of the call. An odd count is an `Err`.
pub(crate) fn probe(
    reader: Reader<'_>,
    pass: &mut Pass,
    call: &Call<'_>,
    row: u64,
    first: bool,
) -> Result<Words, u64>
    requires pass { Fits (table_of reader) pass.old × IsIdle pass.old }
    requires row { row < (share pass.old).rows }
    requires early { IsEarly (begins first (view pass.old) (request_of call.now)) }
    ensures same { StaysOut pass.old pass.new }
    ensures whole { IfOk result (λ words. length words ≡ ROW_WORDS) }
    ensures read { IfOk result (λ words. view pass.new
        ≡ seen_whole (begins first (view pass.old) (request_of call.now)) row words) }
{
    let mut words = [0; ROW_WORDS];
    words[0] = reader.note(pass, call, row, first)?;
    for i in 1..ROW_WORDS {
        words[i] = reader.read_word(pass, row, i as u64);
    }
    Ok(words)
}
