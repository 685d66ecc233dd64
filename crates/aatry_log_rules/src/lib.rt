//! `log --rules`: the requests of each asker that lack something of a folder's policy, those for one path joined, the rule that is missing for each,
//! and what rules can't allow.
#![tactic(auto)]

mod asker;
mod finding;
mod found;
mod gathering;
mod headings;
mod laws;
mod offers;
mod telling;
mod telling_by;
mod unlet;
mod wanted;
mod wider;

pub use finding::{Finding, NoRule, finding_of};
pub use gathering::{RuleWants, gather_wants};
pub use laws::what_told_rules_let;
pub use telling::push_rules;
pub use wanted::{Wanted, WantedRules};
