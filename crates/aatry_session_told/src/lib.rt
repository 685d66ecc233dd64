//! The words of a session at a terminal, in and out: the meaning of its lines, its history, moves in it, refusals, the files that differ from the
//! disk's, and its commands.
#![tactic(auto)]

mod commands;
mod differing;
mod help;
mod history;
mod laws;
mod moves;
mod refusals;
mod sayings;

pub use commands::{change_in, loaded_file, undoes_more};
pub use differing::push_differing;
pub use help::push_help;
pub use history::{push_history, text_of};
pub use laws::what_does_not_differ;
pub use moves::push_moves;
pub use refusals::{push_no_question, push_refusal};
pub use sayings::{Saying, saying_in};
