//! Graphs of states as flat tables: the entry of each state (the bytes that lead into it), the ways (transitions) between states, and the ends of
//! patterns; and runs of them over a text: the states that are live at a place, and how a byte leads from these to those at the next place. Nothing
//! here knows of patterns' texts.
#![tactic(auto)]

mod entry;
mod following;
mod front;
mod laws;
mod leading;
mod packed_state;
mod running;
mod state;
mod states;
mod steps;
mod tables;
mod ways;

pub use entry::Entry;
pub use following::{first, follow};
pub use front::Front;
pub use laws::visits_have_one_count;
pub use running::{pass, run, run_on};
pub use state::{ClassRow, End, Gate, Way};
pub use states::States;
pub use steps::Steps;
pub use tables::Tables;
pub use ways::Leaving;
