//! The plain tree: the slow machine, its calls and replies.
#![tactic(auto)]

mod apply;
mod call;
mod carry;
mod changes;
mod counts;
mod fact;
mod failure;
mod holding;
mod key;
mod laws;
mod own_call;
mod place;
mod plain;
mod plan;
mod reads;
mod refusals;
mod renames;
mod resolve;
mod rows;
mod spot;
mod target;
mod told;

pub use call::{Call, Flags, Follow, Reply, Sort, Stamped};
pub use dc_names::{MOST_COUNT, MOST_INODES, MOST_LINKS, MOST_NAMES, MOST_TOUCHED, NUMBER_LIMIT};
pub use fact::{Fact, answer};
pub use key::{Key, Label};
pub use laws::{
    alters_tells_whether_trees_differ, answers_from_true_facts_are_replies,
    calls_touch_the_listed_keys, directories_have_one_holder, effects_change_what_they_name,
    effects_keep_trees_well_formed, names_in_directories_are_in_order, names_lead_to_the_living,
    opening_tree_is_well_formed, operations_keep_trees_well_formed, paths_lead_to_the_living,
    refusals_alter_nothing, resolution_refuses_by_a_list, resolution_stays_as_more_is_told,
    same_tree_tells_whether_trees_are_one, untouched_facts_stay,
};
pub use own_call::OwnCall;
pub use plain::PlainTree;
pub use refusals::{present, refuse};
pub use spot::{Spot, Where};
pub use target::{ROOT, Target, is_directory};
