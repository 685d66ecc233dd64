//! What a line of a kernel's log holds: the question that it asks, or that no question asks it.
//!
//! A line is one of a kernel's, as audit.log, syslog, `dmesg` and `journalctl` have it, or a record of the system's journal, as `journalctl -o json`
//! writes one.
#![tactic(auto)]

mod asked;
mod entries;
mod laws;
mod lines;
mod logged_questions;
mod messages;
mod pairs;
mod selections;
mod stamps;
mod values;

pub use asked::LoggedQuestion;
pub use entries::{LogEntry, entry_by};
pub use laws::{what_entries_tell, what_is_logged_reads_back, what_is_written_reads_back};
pub use lines::{LogLine, told_by};
pub use selections::Selection;
