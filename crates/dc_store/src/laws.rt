//! The laws that the proofs of the stores rest on, gathered into one.

ghost use Rattle.dc_store.specs.Laws.{TreeLaws};
ghost use Rattle.dc_store.specs.PageLaws.{PagesGoOn, PagesLeaveNoGap, PagesRise};

use dc_plain::{
    effects_change_what_they_name, effects_keep_trees_well_formed, names_lead_to_the_living,
};

/// What holds of every well-formed tree and of each effect on it.
pub fn trees_keep_their_laws()
    ensures { TreeLaws }
{
    effects_keep_trees_well_formed();
    effects_change_what_they_name();
    names_lead_to_the_living();
}

/// A page tells each name that stands behind the one that it begins behind, or it is full and that name is
/// behind all that it tells. What it tells is behind the one that it begins behind, and rises, each name
/// behind the one before. So a run of pages, each of which begins behind the last name of the one before,
/// tells each name that stands throughout exactly once.
pub fn pages_leave_no_gap()
    ensures no_gap { PagesLeaveNoGap }
    ensures goes_on { PagesGoOn }
    ensures rises { PagesRise }
{}
