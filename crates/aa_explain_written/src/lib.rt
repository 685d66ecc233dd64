//! Rules as a profile's file writes them: the rule that a request lacks, so that it can be pasted into a file; and the earlier rule of a file with
//! which the refused one conflicts.
#![tactic(auto)]

mod conflicts;
mod earlier;
mod laws;
mod quotes;
mod sections;
mod written;

pub use earlier::earlier_rule;
pub use laws::{what_is_written_is_read, which_missing_rules_are_written};
pub use written::written_rule;
