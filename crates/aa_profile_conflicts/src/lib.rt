//! Which exec rules of a profile conflict, and whether these rules are too many to look for conflicts.
#![tactic(auto)]

mod classes;
mod conflicts;
mod lead;
mod states;

pub use conflicts::first_conflict;
pub use states::has_many_states;
