//! Why a request is answered as it is: the rules that decide it, the rule that it lacks, the rules that decide under which profile a program runs,
//! where these lead, and which profiles may attach to its path. Results are values; no text is made of them here.
//!
//! It passes on calls of `aa_explain_rules`; questions about all paths are asked of `aa_explain_paths`, `aa_explain_changes`, `aa_explain_reach` and
//! `aa_explain_redundant`.
#![tactic(auto)]

mod alike;
mod candidates;
mod laws;
mod leads;
mod ranks;
mod standing;

pub use aa_decide::attached_child;
pub use aa_explain_rules::{
    AskedRules, ToldRule, how_narrow_a_missing_rule_is, leading_rules, missing_rule, near_rules,
    told_rules, what_a_missing_rule_lets, what_is_logged, what_is_told, what_told_rules_decide,
    where_a_missing_rule_leads, where_rules_stand, which_rules_lead,
};
pub use alike::{policies_alike_decide_alike, who_has_a_full_name};
pub use candidates::{
    Candidate, child_candidates, patterns_of, profile_candidates, rank_of, ranks_of,
};
pub use laws::{what_starts_with_a_missing_rule, which_is_attached};
pub use leads::{Lead, lead_of};
pub use ranks::best_pattern;
pub use standing::{Standing, standing_of};
