//! What a change of rules changes, over all paths: for each rule that only one side has, a shortest path on which an answer changes in which the
//! rule takes part. Use `changes_of_files`; it takes a limit, since there may be exponentially many kinds of paths.
#![tactic(auto)]

mod asking;
mod change;
mod kinds;
mod laws;
mod letters;
mod lone;
mod rules;
mod sides;

pub use asking::{FileChanges, changes_of_files};
pub use change::{Answers, Change, change_between};
pub use laws::{changed_rules_decide, letters_decide_sets, no_change_is_hidden};
pub use lone::LoneRule;
pub use rules::{FileChange, RuleChange};
pub use sides::{Side, Sides};
