//! What rules and attachments say of a request, and how that is logged: which rules apply, what they cover, and the verdict; where a program that is
//! started leads by the rules; which of some profiles attaches to its path; and answers as plain data, with the audit lines that log them.
#![tactic(auto)]

mod attachment_laws;
mod choice;
mod cover;
mod exec_laws;
mod exec_rules;
mod exec_verdict;
mod judgement;
mod laws;
mod log;
mod matching;
mod patterns;
mod ranks;
mod verdict;

pub use attachment_laws::{exact_patterns_rank_highest, which_rank_stands_out};
pub use choice::{ExecChoice, exec_choice};
pub use cover::{applies, covered_by_file, covers, denies, is_audited, needs};
pub use exec_laws::{order_changes_no_choice, where_agreeing_rules_lead};
pub use exec_verdict::{ExecTo, ExecVerdict, StackBase};
pub use judgement::{Mediation, found_verdict, rules_verdict};
pub use laws::{what_matching_rules_decide, what_rules_decide};
pub use log::{exec_line, log_line};
pub use matching::{is_matching, matching_rules};
pub use patterns::{best_rank, rank, rank_of_best};
pub use ranks::{greatest, standing_out};
pub use verdict::{Answer, Tag, Verdict};
