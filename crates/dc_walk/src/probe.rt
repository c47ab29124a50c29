//! A row that is noted and read.

ghost use Rattle.std.specs.Prelude.{◌≡◌, ◌<◌, ◌≤◌, true, take, IfSome, IfNone};
ghost use Rattle.dc_events.specs.Effects.{begins, faulted};
ghost use Rattle.dc_events.specs.Views.Fault.{Busy};
ghost use Rattle.dc_names.specs.declared.limits.TheConstants.{ROW_WORDS};
ghost use Rattle.dc_table.specs.Holders.{table_of};
ghost use Rattle.dc_table.specs.Passes.{view, share, Fits, IsIdle, StaysOut};
ghost use Rattle.dc_walk.specs.Looks.{look_shown};
ghost use Rattle.dc_walk.specs.Probes.{IsEarly, IsReading, MayReadOn, ReadsBehind, ReadsMore, ReadsPart, ReadsRest, ReadsTop};

use crate::look::Look;
use dc_plain::{Key, Label};
use dc_row::{LENGTH_UNIT, LENGTHS, ROW_WORDS, SHORT_WORDS, TAGS, TEXT_START};
use dc_table::{Pass, Reader};

/// How many words past a short text are read at a time. The compiler unrolls so short a loop, and each word
/// then takes half as long (measured).
const BLOCK_WORDS: usize = 4;

/// How many blocks of words lie past a short text.
const PAST_BLOCKS: usize = (ROW_WORDS - TEXT_START - SHORT_WORDS) / BLOCK_WORDS;

const _: () = prove!(TEXT_START + SHORT_WORDS + BLOCK_WORDS * PAST_BLOCKS == ROW_WORDS);

/// How much of a row is read.
#[derive(Clone, Copy)]
pub(crate) enum Extent {
    /// Its head and its number, and the rest only if these are a key's.
    Head,
    /// All of it.
    Whole,
}

/// The first words of a row that was noted: its count, its head and its number.
#[derive(Clone, Copy)]
pub(crate) struct Top {
    pub count: u64,
    pub head: u64,
    pub number: u64,
}

/// A row whose top was read, with the place of its note among those of the walk.
#[derive(Clone, Copy)]
pub(crate) struct Noted {
    pub row: u64,
    pub place: u64,
    pub top: Top,
}

/// Whether a row may tell of a key, by its head and its number alone. Nothing rests on it but time: a walk
/// that says why it gives up for a key reads the rows whole before, and a brief one says nothing of them.
#[inline(always)]
pub(crate) fn may_tell(top: Top, key: Key<'_>) -> bool {
    let (tag, text) = match key.label {
        Label::Text => (2, None),
        Label::Name(_) | Label::DotDot => (1, Some(key.label.bytes().len() as u64)),
    };
    top.number == key.number
        && top.head % TAGS == tag
        && text.is_none_or(|len| top.head / LENGTH_UNIT % LENGTHS == len)
}

/// Notes a row and reads its head and its number. `first` begins the walk of the call. Of an odd row
/// nothing more is read than the count.
#[inline(always)]
pub(crate) fn read_top(
    reader: Reader<'_>,
    pass: &mut Pass,
    look: Look<'_>,
    row: u64,
    first: bool,
) -> Option<Top>
    requires pass { Fits (table_of reader) pass.old × IsIdle pass.old }
    requires row { row < (share pass.old).rows }
    requires early { IsEarly (begins first (view pass.old) (look_shown look)) }
    ensures same { StaysOut pass.old pass.new }
    ensures read { IfSome result (ReadsTop (begins first (view pass.old) (look_shown look.entry))
        (view pass.new) row) }
    ensures odd { IfNone result (view pass.new
        ≡ faulted (begins first (view pass.old) (look_shown look.entry)) (Busy row)) }
{
    // The count before the words: words that are written meanwhile have a higher count, which the check
    // after the pivot finds. Read after them, a count could be that of a later fact.
    let Ok(count) = reader.note(pass, &look.call(), row, first) else {
        return None;
    };
    let head = reader.read_word(pass, row, 1);
    let number = reader.read_word(pass, row, 2);
    Some(Top {
        count,
        head,
        number,
    })
}

/// Reads the rest of a row whose top was read, and answers its value, and whether the words behind are
/// those of a short text. They are compared as they come, and not kept. If it is `brief` it leaves the row
/// at the first word of the text that differs, and answers `None`.
// Inlined: the text's words stay in registers.
#[inline(always)]
pub(crate) fn read_short(
    reader: Reader<'_>,
    pass: &mut Pass,
    noted: Noted,
    text: &[u64; SHORT_WORDS],
    brief: bool,
) -> Option<(u64, bool)>
    requires on { MayReadOn (table_of reader) pass.old noted }
    ensures same { StaysOut pass.old pass.new }
    ensures read { IfSome result (λ r.
        ReadsBehind pass.old pass.new noted text.now r.0 r.1) }
    ensures left { IfNone result ((brief ≡ true) × ReadsPart pass.old pass.new noted) }
{
    let row = noted.row;
    let value = reader.read_word(pass, row, 3);
    // The bits in which any word differs: compared one by one, the words would be kept until the last is read.
    let mut differ = 0;
    for i in 0..SHORT_WORDS {
        let word = reader.read_word(pass, row, (TEXT_START + i) as u64);
        differ |= word ^ text[i];
        if brief && differ != 0 {
            return None;
        }
    }
    for block in 0..PAST_BLOCKS {
        for i in 0..BLOCK_WORDS {
            let at = TEXT_START + SHORT_WORDS + BLOCK_WORDS * block + i;
            let past = reader.read_word(pass, row, at as u64);
            differ |= past;
        }
    }
    Some((value, differ == 0))
}

/// Reads the words of the row that was noted last from one on, and answers whether they are zero. They are
/// not kept.
#[inline(always)]
pub(crate) fn are_past(
    reader: Reader<'_>,
    pass: &mut Pass,
    row: u64,
    words: &[u64],
    from: usize,
) -> bool
    requires pass { Fits (table_of reader) pass.old × IsIdle pass.old }
    requires row { row < (share pass.old).rows }
    requires some { (0 < from) × (from ≤ ROW_WORDS) }
    requires reading { IsReading (view pass.old) row words.now from }
    ensures same { StaysOut pass.old pass.new }
    ensures read { ReadsRest pass.old pass.new row words.now from (take from words.now) result }
{
    let mut past = 0;
    for i in from..ROW_WORDS {
        past |= reader.read_word(pass, row, i as u64);
    }
    past == 0
}

/// Reads words of the row that was noted last, from one up to another.
// Inlined, for a few words at a time (measured): only so short a loop is unrolled.
#[inline(always)]
pub(crate) fn read_words(
    reader: Reader<'_>,
    pass: &mut Pass,
    row: u64,
    words: &mut [u64],
    from: usize,
    to: usize,
)
    requires pass { Fits (table_of reader) pass.old × IsIdle pass.old }
    requires row { row < (share pass.old).rows }
    requires reading { IsReading (view pass.old) row words.old from }
    requires some { (0 < from) × (from ≤ to) × (to ≤ ROW_WORDS) }
    ensures same { StaysOut pass.old pass.new }
    ensures fits { Fits (table_of reader.entry) pass.new }
    ensures before { take from words.new ≡ take from words.old }
    ensures reading { IsReading (view pass.new) row words.new to }
    ensures read { ReadsMore pass.old pass.new row words.old from words.new to }
{
    for i in from..to {
        words[i] = reader.read_word(pass, row, i as u64);
    }
}
