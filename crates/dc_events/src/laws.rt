//! Laws of the definitions, as contracts of functions that do nothing.

ghost use Rattle.dc_events.specs.Laws.{HoldersKeepTheRule, WalkersKeepTheRule, PassesKeepTheRule, LoadsTellNothing, NewTablesHaveTheRule, RecordsAreLegal};

use dc_plain::{
    answers_from_true_facts_are_replies, opening_tree_is_well_formed,
    operations_keep_trees_well_formed, same_tree_tells_whether_trees_are_one, untouched_facts_stay,
};
use dc_row::{empty_row_spells_nothing, words_have_the_fact_they_spell};

/// Each event of a table, by any actor, keeps the rule.
pub fn events_keep_the_rule()
    ensures holders { HoldersKeepTheRule }
    ensures walkers { WalkersKeepTheRule }
{
    opening_tree_is_well_formed();
    operations_keep_trees_well_formed();
    untouched_facts_stay();
    answers_from_true_facts_are_replies();
    same_tree_tells_whether_trees_are_one();
    words_have_the_fact_they_spell();
}

/// Views that have the same walk, book and hold are one to the rule, whatever was loaded.
pub fn loads_tell_nothing()
    ensures { LoadsTellNothing }
{}

/// What a pass has seen may be handed to a new pass, and a pass may take in what another did and saw:
/// both keep the rule.
pub fn passes_keep_the_rule()
    ensures { PassesKeepTheRule }
{}

/// A new table has the rule.
pub fn new_tables_have_the_rule()
    ensures { NewTablesHaveTheRule }
{
    empty_row_spells_nothing();
}

/// The records of actors under the rule are those of a run of one thread.
pub fn records_are_legal()
    ensures { RecordsAreLegal }
{
    same_tree_tells_whether_trees_are_one();
}
