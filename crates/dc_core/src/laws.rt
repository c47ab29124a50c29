//! A law of the definitions, as the contract of a function that does nothing.

ghost use Rattle.dc_core.specs.AsTable.{EventsAreSteps};

use dc_events::{events_keep_the_rule, loads_tell_nothing};

/// Each event that is not refused is a step of the table: what it makes of its actor's view is the
/// effect of the act of that name, and every other view stays.
pub fn events_are_steps_of_the_table()
    ensures { EventsAreSteps }
{
    events_keep_the_rule();
    loads_tell_nothing();
}
