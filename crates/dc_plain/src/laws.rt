//! Laws of the definitions, as contracts of functions that do nothing.

ghost use Rattle.std.specs.Cmp.{IsTotalOrder};
ghost use Rattle.dc_plain.specs.Trees.{empty_tree, spot_cmp};
ghost use Rattle.dc_plain.specs.EffectLaws.{NewKeepsWellFormed, FurtherNameKeepsWellFormed, LostNameKeepsWellFormed, MoveKeepsWellFormed, SwapKeepsWellFormed, NewChanges, FurtherNameChanges, LostNameChanges, MoveChanges, SwapChanges};
ghost use Rattle.dc_plain.specs.LivingLaws.{WalksLeadToTheLiving, PlacesAreInLiveDirectories, TextsAreInLiveDirectories, NamesLeadToTheLiving, NamesLeadSomewhere, HoldersAreLiveDirectories, DirectoriesHaveOneName, NextNumberIsUnused, ClimbsEndUnheld, ClimbsGoByHolders, SpotsTie, AltersDecides, SameTreeDecides};
ghost use Rattle.dc_plain.specs.IsWellFormed.{IsWellFormed};
ghost use Rattle.dc_plain.specs.FactLaws.{RepliesByFacts, UntouchedStay};
ghost use Rattle.dc_plain.specs.Laws.{KeepsTreesWellFormed, KeepsWithinLimit, KeepsRunsWellFormed, KeepsRunsWithinLimit, WalksRefuseByTheList, PlacesRefuseByTheList, WalksStay, PlacesStay, TouchesTheListed, OthersStay, TouchesFew, TouchesEachOnce, AltersWhereItTouches, RefusalsAlterNothing};

use dc_names::parts_are_names_or_dots;

/// The tree that is opened is well formed.
pub fn opening_tree_is_well_formed()
    ensures { IsWellFormed empty_tree }
{}

/// Every call keeps a tree well formed, and within the limit of inodes.
pub fn operations_keep_trees_well_formed()
    ensures well_formed { KeepsTreesWellFormed }
    ensures within { KeepsWithinLimit }
    ensures runs { KeepsRunsWellFormed }
    ensures runs_within { KeepsRunsWithinLimit }
{
    parts_are_names_or_dots();
}

/// A call that is refused leaves the tree as it was.
pub fn refusals_alter_nothing()
    ensures { RefusalsAlterNothing }
{}

/// A path is refused by ENOENT, ENOTDIR or ELOOP alone, whoever tells where entries lead.
pub fn resolution_refuses_by_a_list()
    ensures walks { WalksRefuseByTheList }
    ensures places { PlacesRefuseByTheList }
{}

/// What a path leads to stays the same if more is told.
pub fn resolution_stays_as_more_is_told()
    ensures walks { WalksStay }
    ensures places { PlacesStay }
{}

/// A call alters what is told of the listed keys, and of nothing else. Each is listed once, and at
/// most `MOST_TOUCHED` are.
pub fn calls_touch_the_listed_keys()
    ensures keys { TouchesTheListed }
    ensures others { OthersStay }
    ensures few { TouchesFew }
    ensures once { TouchesEachOnce }
    ensures alters { AltersWhereItTouches }
{
    parts_are_names_or_dots();
}

/// An answer that follows from facts which are all true in a tree is the operation's reply on that
/// tree, and the call alters nothing.
pub fn answers_from_true_facts_are_replies()
    ensures { RepliesByFacts }
{}

/// A true fact whose key a call doesn't touch stays true.
pub fn untouched_facts_stay()
    ensures { UntouchedStay }
{
    parts_are_names_or_dots();
}

/// The effects of changes, made if they may be, keep a tree well formed.
pub fn effects_keep_trees_well_formed()
    ensures new { NewKeepsWellFormed }
    ensures further { FurtherNameKeepsWellFormed }
    ensures lost { LostNameKeepsWellFormed }
    ensures moved { MoveKeepsWellFormed }
    ensures swapped { SwapKeepsWellFormed }
{}

/// What the effects of changes make of entries, inodes, holders and counts of names.
pub fn effects_change_what_they_name()
    ensures new { NewChanges }
    ensures further { FurtherNameChanges }
    ensures lost { LostNameChanges }
    ensures moved { MoveChanges }
    ensures swapped { SwapChanges }
{}

/// What a path leads to lives, of the kind that is told, and its last part is to be looked up in a
/// live directory.
pub fn paths_lead_to_the_living()
    ensures walks { WalksLeadToTheLiving }
    ensures places { PlacesAreInLiveDirectories }
    ensures texts { TextsAreInLiveDirectories }
{}

/// What a name leads to lives, and what holds it is a live directory; nothing lives under the next
/// number.
pub fn names_lead_to_the_living()
    ensures names { NamesLeadToTheLiving }
    ensures nowhere { NamesLeadSomewhere }
    ensures holders { HoldersAreLiveDirectories }
    ensures next { NextNumberIsUnused }
{}

/// A directory other than the root has one name, and one climbs from it to the directory that holds
/// it.
pub fn directories_have_one_holder()
    ensures named { DirectoriesHaveOneName }
    ensures unheld { ClimbsEndUnheld }
    ensures up { ClimbsGoByHolders }
{}

/// Names in directories are in a total order, which ties if they are one name.
pub fn names_in_directories_are_in_order()
    ensures total { IsTotalOrder spot_cmp }
    ensures ties { SpotsTie }
{}

/// The test `alters` of the definitions tells whether a call makes another tree.
pub fn alters_tells_whether_trees_differ()
    ensures { AltersDecides }
{}

/// The test `same_tree` of the definitions tells whether two trees are one.
pub fn same_tree_tells_whether_trees_are_one()
    ensures { SameTreeDecides }
{}
