//! Transcripts of the machine: their lines, the commands and assertions that they hold, where the reply to each ends in a run's output, which output
//! lines meet the wanted ones, and what a transcript becomes whose replies are accepted.
#![tactic(auto)]

mod accepting;
mod laws;
mod lines;
mod meeting;
mod replies;
mod transcripts;

pub use accepting::{accepted_text, can_be_accepted};
pub use laws::{what_a_comparison_says, what_acceptance_makes};
pub use lines::{line_at, lines_behind, lines_of, transcript_lines};
pub use meeting::are_met;
pub use replies::told_size;
pub use transcripts::{
    assertion_count, assertion_in, command_count, command_in, input_of, is_assertion, is_command,
    wanted_in, wanted_next,
};
