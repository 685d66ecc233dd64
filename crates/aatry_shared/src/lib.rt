//! The changes that several profiles of a folder of policy have in common: what only one side of a profile has, which rule it is and how it is
//! printed, and which other profiles have it; and the rules that make a difference to a question.
#![tactic(auto)]

mod causes;
mod change;
mod differing;
mod laws;
mod part_features;
mod shared_lines;
mod sharing;
mod side;

pub use causes::push_causes;
pub use change::{Change, change_at};
pub use differing::push_lines;
pub use laws::what_is_shared_is_told_once;
pub use shared_lines::push_shared;
pub use sharing::{Group, Sharing};
pub use side::{Finders, PartPair, Side, SidePart, finders_in};
