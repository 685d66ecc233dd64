//! What a change of policy changes of profiles, children and hats, for all paths, all capabilities, all sockets and all starts of programs: what is found, and in
//! which word that is said.
#![tactic(auto)]

mod finding;
mod kinds;
mod laws;
mod names;
mod others;
mod starts;

pub use finding::{BothFound, Finding, Found, Question, find_asked, sides_of};
pub use kinds::{Kind, has_otherwise, has_undecided, is_same, kind_of_both, kinds_of, same_state};
pub use laws::what_is_the_same_answers_alike;
pub use others::{Other, OtherChange};
pub use starts::Policies;
