//! The questions of a walk, answered by the rows of a source.

ghost use Rattle.std.specs.Prelude.{◌≡◌, ◌≢◌, true, IfErr, IfOk, OnOk, OnErr};
ghost use Rattle.dc_names.specs.Names.{part_shown};
ghost use Rattle.dc_names.specs.Paths.Part.{Dot};
ghost use Rattle.dc_plain.specs.Facts.Label.{Text};
ghost use Rattle.dc_plain.specs.KeysShown.{key_shown};
ghost use Rattle.dc_resolve.specs.Asked.{label_of};
ghost use Rattle.dc_table.specs.Holders.{table_of};
ghost use Rattle.dc_table.specs.Passes.{share};
ghost use Rattle.dc_walk.specs.Becomings.{Becomes, IsGood, KeepsPinned, MayAskRows, MayAskNew, Had, Stops};
ghost use Rattle.dc_walk.specs.Causes.{TellsWhy};
ghost use Rattle.dc_index.specs.Slots.{key_hash};
ghost use Rattle.dc_walk.specs.Finds.{StandsAt};
ghost use Rattle.dc_walk.specs.Rooms.{key_bytes, HasWords, Keeps};
ghost use Rattle.dc_walk.specs.Sources.{PinsIts, Serves};
ghost use Rattle.dc_walk.specs.Unpins.{spare_of};

use crate::bucket::seek_row;
use crate::rows::{Rows, Stop};
use crate::source::{Lane, Source};
use crate::used::standing;
use crate::why::Why;
use dc_names::{NoMemory, Part};
use dc_plain::{Key, Label};
use dc_row::words_have_the_fact_they_spell;

/// The key under which a part, a name or dot-dot, is looked up in the directory of a number.
#[must_use]
pub fn key_of<'a>(number: u64, part: Part<'a>) -> Key<'a>
    requires asked { part_shown part ≢ Dot }
    ensures key { key_shown result ≡ record { number = number; label = label_of (part_shown part.entry) } }
    ensures entry { (key_shown result).label ≢ Text }
{
    let label = match part {
        Part::Normal(name) => Label::Name(name),
        Part::DotDot => Label::DotDot,
        // The caller knows that it is no dot: for a dot nothing is looked up.
        Part::Dot => unreachable!(),
    };
    Key { number, label }
}

/// The key of a link's text.
pub(crate) fn text_key<'a>(number: u64) -> Key<'a>
    ensures { key_shown result ≡ record { number = number; label = Text } }
{
    let label = Label::Text;
    Key { number, label }
}

/// Why a walk ends if the rows that were looked at don't tell of a key. The first odd one of them is `odd`,
/// and `answered` questions were answered before.
fn why_of(odd: Option<u64>, key: Key<'_>, answered: u64) -> Why
    ensures { TellsWhy odd (key_shown key.entry) answered result }
{
    match (odd, key.label) {
        (Some(row), _) => Why::Busy(row),
        (None, Label::Text) => Why::Link,
        (None, Label::Name(_) | Label::DotDot) => Why::Miss(answered),
    }
}

/// Has the rows that may tell of a key.
#[inline(always)]
fn have<S: Source>(
    source: &S,
    rows: &mut Rows<'_>,
    key: Key<'_>,
    hash: u64,
) -> Result<Lane, NoMemory>
    requires serves { S.serves source.now (table_of rows.old.reader) }
    requires good { IsGood rows.old }
    requires hash { hash ≡ key_hash (key_shown key) }
    ensures had { Had S.locks rows.old rows.new }
    ensures pins { PinsIts S.locks rows.old.pass.now rows.new.pass.now result }
    ensures rows { IfOk result
        (Serves S.locks (share rows.new.pass.now).rows (key_shown key.entry)) }
    ensures refused { OnErr result (S.locks ≡ true) }
{
    source.rows_of(rows.reader, rows.pass, key, hash)
}

/// Asks rows for a key that no used row tells of, by its hash, and answers the place of the row that does
/// among the used ones.
#[inline(always)]
fn ask<S: Source>(source: &S, rows: &mut Rows<'_>, key: Key<'_>, hash: u64) -> Result<usize, Stop>
    requires serves { S.serves source.now (table_of rows.old.reader) }
    requires hash { hash ≡ key_hash (key_shown key) }
    requires may { MayAskNew rows.old (key_shown key) }
    requires words { HasWords rows.old.used.now (key_bytes (key_shown key).label) }
    ensures becomes { OnOk result (Becomes S.locks rows.old rows.new) }
    ensures pins { KeepsPinned S.locks rows.old rows.new (spare_of result) }
    ensures told { IfOk result (StandsAt rows.new.used.now.items (key_shown key.entry)) }
    ensures keeps { OnOk result (Keeps rows.old.used.now rows.new.used.now
        (key_bytes (key_shown key.entry).label)) }
    ensures stops { IfErr result (Stops S.locks rows.old rows.new) }
{
    if rows.used.is_full() {
        return Err(Stop {
            why: Why::Long,
            spare: None,
        });
    }
    let Ok(lane) = have(source, rows, key, hash) else {
        return Err(Stop {
            why: Why::Memory,
            spare: None,
        });
    };
    let answered = rows.used.len() as u64;
    match seek_row(rows, lane, key, hash) {
        // As many rows are used as can be, after two looks for one of them: to check them all would take
        // a walk past its loads.
        Ok(_) if rows.slow && rows.used.is_full() => Err(Stop {
            why: Why::Long,
            spare: None,
        }),
        Ok(at) => Ok(at),
        Err(odd) => Err(Stop {
            why: why_of(odd, key, answered),
            spare: lane.head(),
        }),
    }
}

/// The place of the used row that tells of a key with this hash. If none does yet, the rows of the
/// source are asked.
#[inline(always)]
pub(crate) fn told<S: Source>(
    source: &S,
    rows: &mut Rows<'_>,
    key: Key<'_>,
    hash: u64,
) -> Result<usize, Stop>
    requires serves { S.serves source.now (table_of rows.old.reader) }
    requires hash { hash ≡ key_hash (key_shown key) }
    requires may { MayAskRows rows.old (key_shown key).number (key_shown key).label }
    requires words { HasWords rows.old.used.now (key_bytes (key_shown key).label) }
    ensures becomes { OnOk result (Becomes S.locks rows.old rows.new) }
    ensures pins { KeepsPinned S.locks rows.old rows.new (spare_of result) }
    ensures told { IfOk result (StandsAt rows.new.used.now.items (key_shown key.entry)) }
    ensures keeps { OnOk result (Keeps rows.old.used.now rows.new.used.now
        (key_bytes (key_shown key.entry).label)) }
    ensures stops { IfErr result (Stops S.locks rows.old rows.new) }
{
    words_have_the_fact_they_spell();
    // Most paths have no key twice, so that few rows are looked through for one.
    if rows.filter.may_hold(hash) {
        if let Some(at) = standing(rows.used, key) {
            return Ok(at);
        }
    }
    ask(source, rows, key, hash)
}
