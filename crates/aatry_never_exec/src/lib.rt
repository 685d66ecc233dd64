//! What the command `never` tells of the start of programs: whether one that somebody starts, or that such a one starts in turn, ever runs unconfined, with the
//! chain of starts by which it does.
#![tactic(auto)]

mod chain;
mod laws;
mod never_exec;
mod telling;

pub use laws::{what_never_exec_says, which_words_ask_exec};
pub use never_exec::{claim_fault, claim_folder};
