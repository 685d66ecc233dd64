//! Claims about all paths: their words, the patterns that are meant, and the answers for profiles, children and hats; and the commands `never` and
//! `always`, which report them for a folder, with a path that breaks the claim, and the rules that decide that.
#![tactic(auto)]

mod breaking;
mod faults;
mod found;
mod held;
mod letters;
mod modes;
mod never;
mod patterns;
mod sentences;
mod telling;
mod words;

pub use breaking::{Claimed, breaking_of};
pub use faults::paths_fault;
pub use found::{Finding, Found, Inquiry, asks_rules, every_rule, find};
pub use held::{is_held, is_undecided};
pub use never::{PathsReport, paths_folder, slices_of};
pub use patterns::asked_patterns;
pub use sentences::{owner_note, owner_word, push_absent, push_found};
pub use words::{PathWords, letters_of, path_words, whose_of};
