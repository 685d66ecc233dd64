//! The command `why`: the answer of a folder's policy to a question, with the rules that decide it; and for the start of a program where the rules
//! lead, and which profiles may attach to its path.
#![tactic(auto)]

mod asks;
mod attachment;
mod destinations;
mod how;
mod laws;
mod meant;
mod replies;
mod sources;
mod targets;
mod transition;
mod unasked;
mod uncertain;
mod why;

pub use destinations::{destination_base, destination_text};
pub use laws::which_rules_why_tells;
pub use sources::Sources;
pub use why::{push_answer, push_asked, why_folder};
