//! The abstractions of a folder of policy, and which requests each of them allows by its own rules.
#![tactic(auto)]

mod letting;
mod probes;

pub use letting::{LettingAbstraction, letting_abstractions};
pub use probes::{copied, only_profile, push_preamble, put};
