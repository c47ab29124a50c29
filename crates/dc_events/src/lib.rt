//! The events of a shared table of words: what each does, and the rule that each keeps, as
//! definitions and laws. The machine of events and the table cite it.
#![tactic(auto)]

mod laws;

pub use laws::{
    events_keep_the_rule, loads_tell_nothing, new_tables_have_the_rule, passes_keep_the_rule,
    records_are_legal,
};
