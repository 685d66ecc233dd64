//! Wider patterns for the paths of requests: with a variable or a class in place of what another run of a program would have otherwise.
#![tactic(auto)]

mod laws;
mod rule;
mod runs;
mod variables;
mod widening;

pub use laws::what_is_offered_is_wider;
pub use rule::wider_rule;
pub use widening::wider;
