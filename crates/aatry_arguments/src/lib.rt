//! What the words of `aatry`'s arguments ask for: one of its commands, with the form of its report, help, the version, or nothing that exists.
#![tactic(auto)]

mod arguments;
mod asking_words;
mod check_line;
mod check_words;
mod diff_all_laws;
mod diff_all_words;
mod diff_line;
mod diff_words;
mod faults;
mod flags;
mod forms;
mod languages;
mod laws;
mod log_words;
mod paths_words;
mod reach_words;
mod reading;
mod rules_words;
mod session_words;
mod test_words;
mod values;

pub use aa_start::ArgumentFault;
pub use arguments::{
    AllPaths, Asking, Call, Check, Command, Comparison, LogLines, LogTelling, Logs, PathComparison,
    Reach, RequestSource, RulesCheck, Session, Test,
};
pub use diff_all_laws::what_path_comparisons_have;
pub use forms::call_of;
pub use laws::{
    how_languages_are_named, how_values_are_named, what_askings_have, what_checks_have,
    what_comparisons_have, what_logs_have, what_reaches_have, what_rule_checks_have,
    what_sessions_have, what_tests_have,
};
pub use values::{NamedOption, WithValue, value_of};
