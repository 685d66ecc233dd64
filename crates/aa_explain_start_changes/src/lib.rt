//! What a change of policy changes of the start of programs, for all paths: what they lead to, by name, and whether
//! their environment is scrubbed, wherever that differs, each with a shortest path.
#![tactic(auto)]

mod asking;
mod changes;
mod laws;
mod patterns;
mod places;
mod same;
mod starter;

pub use asking::start_changes;
pub use changes::StartChange;
pub use laws::no_start_change_is_hidden;
pub use starter::{Led, Starter, Starters};
