//! What a call makes of a store: changes as plans that are carried out, and reads.
#![tactic(auto)]

mod conditions;
mod dispatch;
mod effects;
mod finder;
mod keys;
mod known;
mod makes;
mod pages;
mod paths;
mod plans;
mod reads;
mod renames;
mod takes;
mod whereabouts;

pub use dc_plain::{Call, Flags, Key, Label, Reply};
pub use dispatch::{plan, plan_knowing};
pub use effects::carry;
pub use finder::StoreFinder;
pub use known::Known;
pub use pages::page;
pub use plans::{Moved, Plan};
pub use reads::{ask, look_by, seek};
pub use whereabouts::path_of;
