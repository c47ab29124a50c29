//! What a look-up passes through: the directories in which it asks for a name or for dot-dot, for a
//! caller who tests search permission in each of them.
#![tactic(auto)]

mod halt;
mod trailed;
mod walk;

pub use halt::Halt;
pub use walk::walk_along;
