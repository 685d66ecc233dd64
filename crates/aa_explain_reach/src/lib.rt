//! The start of programs over all paths: each place that programs started by someone may go to, with a shortest path that leads there; chains of starts:
//! under what programs may run that are started from each other; and profiles that no path is attached to.
#![tactic(auto)]

mod going;
mod laws;
mod patterns;
mod places;
mod reach;
mod reached;
mod ready;
mod standing;
mod start;
mod start_laws;
mod starters;
mod starts;
mod unattached;

pub use laws::{what_is_not_reached, what_is_reached};
pub use patterns::{attachment_patterns, every_pattern, start_rules, wanted_patterns};
pub use places::{leads_somewhere, same_to};
pub use reach::{Reach, reachable_profiles};
pub use reached::Reached;
pub use ready::{ReadyAsker, exec_ready};
pub use standing::standing_among;
pub use start::Start;
pub use start_laws::{how_starts_depend_on_paths, which_starts_are_shortest};
pub use starts::starts_of;
pub use unattached::unattached_profiles;
