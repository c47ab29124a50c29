//! From the words of notes to facts.

ghost use Rattle.std.specs.Prelude.{◌≡◌, ◌++◌, map, option_map, IsTrue, IfOk, OnOk};
ghost use Rattle.dc_core.specs.Shown.{note_shown};
ghost use Rattle.dc_core.specs.Told.{AreSpelled, AreRows, IsSpelled, facts_told, told_in};
ghost use Rattle.dc_events.specs.Noted.{facts_in};
ghost use Rattle.dc_plain.specs.FactsShown.{fact_shown};
ghost use Rattle.dc_plain.specs.KeysShown.{label_shown};
ghost use Rattle.dc_row.specs.Rows.{row_shown, label_shown as row_label_shown};
ghost use Rattle.dc_row.specs.Spelling.{has_spelling};
ghost use Rattle.dc_core.specs.Labels.{IsLabel};

use crate::actor::Note;
use dc_names::{Name, NoMemory, PathText};
use dc_plain::{Fact as Said, Label};
use dc_row::{Row, RowLabel, decode, words_have_the_fact_they_spell};
use std::alloc::Global;

/// The label of a row, as the tree has it.
fn label_of(label: &RowLabel) -> Label<'_>
    requires { IsLabel (row_label_shown label.now) }
    ensures { label_shown result ≡ row_label_shown label.now }
{
    match label {
        RowLabel::Name(text) => Label::Name(Name::known(text.bytes())),
        RowLabel::DotDot => Label::DotDot,
    }
}

/// The fact of a row that words can spell.
pub(crate) fn fact_of(row: &Row) -> Option<Said<'_>>
    requires { IsTrue (has_spelling (row_shown row.now)) }
    ensures { option_map fact_shown result ≡ row_shown row.now }
{
    match row {
        Row::Empty => None,
        Row::Entry(number, label, target) => Some(Said::Entry(*number, label_of(label), *target)),
        Row::Link(number, text) => Some(Said::Text(*number, PathText::known(text.bytes()))),
    }
}

/// Adds the row that a note spells, if it is checked.
fn push_row(rows: &mut Vec<Row>, note: &Note) -> Result<(), NoMemory>
    requires rows { AreRows rows.old.items }
    requires spelled { IsSpelled (note_shown note.now) }
    ensures facts { OnOk result (facts_told rows.new.items
        ≡ facts_told rows.old.items ++ told_in (note_shown note.now)) }
    ensures rows { OnOk result (AreRows rows.new.items) }
{
    words_have_the_fact_they_spell();
    if !note.checked {
        return Ok(());
    }
    let Some(row) = decode(&note.words) else {
        return Ok(());
    };
    rows.push(row)?;
    Ok(())
}

/// The rows that the checked notes spell.
pub(crate) fn rows_of(alloc: Global, notes: &[Note]) -> Result<Vec<Row>, NoMemory>
    requires { AreSpelled (map note_shown notes.now) }
    ensures facts { IfOk result (λ rows.
        facts_told rows.items ≡ facts_in (map note_shown notes.now)) }
    ensures rows { IfOk result (λ rows. AreRows rows.items) }
{
    let mut rows = Vec::new(alloc);
    for note in notes {
        push_row(&mut rows, note)?;
    }
    Ok(rows)
}

/// The facts of the rows that have one.
pub(crate) fn facts_of(alloc: Global, rows: &[Row]) -> Result<Vec<Said<'_>>, NoMemory>
    requires { AreRows rows.now }
    ensures { IfOk result (λ facts. map fact_shown facts.items ≡ facts_told rows.now) }
{
    let mut facts = Vec::new(alloc);
    for row in rows {
        if let Some(fact) = fact_of(row) {
            facts.push(fact)?;
        }
    }
    Ok(facts)
}
