//! The command `check --rules`: finds the written rules of profiles, children and hats of a folder of policy that decide nothing, and reports each
//! with the reason and an example of what it matches; and the profiles that no path is attached to.
#![tactic(auto)]

mod below;
mod finding;
mod laws;
mod numbers;
mod rules_told;
mod summary;
mod telling;
mod trying;
mod unattached;
mod unattached_told;

pub use below::{RulesHow, check_rules_folder};
pub use finding::{
    Found, Question, RedundantRule, find, has_absent, is_absent, is_many, some_many, some_told,
};
pub use laws::numbers_tell_written_rules;
pub use numbers::place_at;
pub use trying::Which;
pub use unattached::{find_unattached, is_profile_asked, origin_of, unattached_count};
