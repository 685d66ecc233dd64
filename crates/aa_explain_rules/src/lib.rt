//! The rules that decide a request: those that apply, those that are near, the one that is missing, and those that decide under which profile a
//! program runs; and requests for one path, joined, with the one rule that they lack. Results are values; no text is made of them here. `aa_explain`
//! passes on what most callers need.
#![tactic(auto)]

mod asked;
mod in_the_way;
mod joining;
mod joining_laws;
mod laws;
mod leading;
mod missing;
mod near;
mod scripts;
mod told;

pub use asked::AskedRules;
pub use in_the_way::rules_in_the_way;
pub use joining::joined;
pub use joining_laws::{what_further_rules_let, what_joined_requests_let};
pub use laws::{
    how_narrow_a_missing_rule_is, what_a_missing_rule_lets, what_is_in_the_way, what_is_logged,
    what_is_told, what_told_rules_decide, where_a_missing_rule_leads, where_rules_stand,
    which_rules_lead,
};
pub use leading::leading_rules;
pub use missing::missing_rule;
pub use scripts::script_rule;
pub use told::{ToldRule, near_rules, told_rules};
