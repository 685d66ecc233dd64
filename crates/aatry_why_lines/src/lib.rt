//! The report on the rules that decide an answer, as lines or as records: each with the line and the column where it is written.
#![tactic(auto)]

mod finding;
mod groups;
mod laws;
mod lines;
mod missing;
mod why;
mod written;

pub use finding::Finder;
pub use laws::what_is_told_as_audited;
pub use lines::{Where, rule_text, where_of};
pub use missing::{pasted_rule, shown_missing};
pub use why::{push_allowing, push_why};
pub use written::WrittenRules;
