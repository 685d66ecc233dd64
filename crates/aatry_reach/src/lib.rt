//! The command `reach`: under which profiles programs may run that somebody starts, and those that these start.
#![tactic(auto)]

mod finding;
mod graph;
mod places;
mod reach;
mod telling;

pub use finding::{Finding, Found, find};
pub use places::place_text;
pub use reach::reach_folder;
pub use telling::push_node;
